//! The job of an options text, or the first refusal.
//!
//! [`build`] is the call. What it answers is the definition `job_of` of text_model, for every text: the shape of the
//! tables, the number of handles, names, producers, expressions and the forest, phase after phase (docs/FORMATS.md,
//! "Refusals of options"). A job that it answers is valid, as `Valid` of hive_model has it: that is a law of the
//! definition, which `text_laws` has.
#![tactic(auto)]

mod algorithms;
mod building;
mod expressions;
mod forest;
mod kinds;
mod names;
mod naming;
mod needs;
mod repeats;
mod scope;

pub use building::build;
