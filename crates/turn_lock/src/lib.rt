//! A FIFO ticket lock that keeps a ghost history of the value behind it.
//!
//! A value that is [`Kept`] keeps a list of items, which only grows: its history. A [`Turn`] gives the value
//! out to one holder at a time. Whoever uses it has a [`TurnPass`], which remembers, in the proofs alone,
//! which prefix of the history it has seen and the positions of the items that it added. [`Turn::hold`] gives
//! a value whose history begins with all that the pass has seen, and [`Turn::close`] gives the last value
//! back, in whose history each item that was added is some pass's own.
//!
//! The lock stands on the kit's `atomic_table`: the rule that its words, its slot and its passes keep is
//! `specs/Tickets`, and each step on it is one lemma of `proofs/`.
#![tactic(auto)]

mod crowd;
mod kept;
mod pass;
mod plays;
mod rule;
mod steps;
mod turn;
mod view;

pub use kept::Kept;
pub use pass::TurnPass;
pub use turn::Turn;
