//! Laws of an event's meaning: what follows from the definitions of `hive_model`, and the lemmas that several
//! crates above cite.
//!
//! Each public function here does nothing: its contract is the law. [`closure`] has the laws on which the
//! scheduler stands; `proofs/` says in its `Lib.antt` in which order to read.
#![tactic(auto)]

pub mod closure;
pub mod equality;
pub mod event_store;
pub mod nodes;
pub mod paths;
pub mod places;
pub mod valid_jobs;
