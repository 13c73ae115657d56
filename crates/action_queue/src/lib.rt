//! The queue by which workers hand results to whoever books them: bounded, first in first out, and nothing is lost.
//!
//! An [`Actions`] belongs to one job. Whoever uses it has a [`QueuePass`], which remembers, in the proofs alone,
//! which results it has put and which it has taken. [`Actions::end`] asks for all passes and gives what is
//! [`Left`]: the results that were put are, as often, those that were taken and those that are left.
//!
//! The queue stands on the kit's `crossbeam_queue`. The rule that its results and its passes keep is
//! `specs/Rule`, and each step on it is one lemma of `proofs/`.
#![tactic(auto)]

mod actions;
mod left;
mod limits;
mod pass;
mod plays;
mod rule;
mod view;

pub use actions::Actions;
pub use left::Left;
pub use limits::MOST_WAITING;
pub use pass::QueuePass;
