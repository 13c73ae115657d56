//! Laws of what texts mean: what follows from the definitions of `text_model` alone, and the lemmas on them that
//! several crates above cite.
//!
//! Each public function here does nothing: its contract is the law. The law of [`jobs`] is that the job of a text
//! is a valid one, so a reader that answers as defined owes no proof of that by itself.
#![tactic(auto)]

pub mod expressions;
pub mod jobs;
