//! The meaning of one event by itself: the plain program that the scheduler's results are compared
//! with.
//!
//! [`closure`] computes the result of an event by the definitions of `hive_model`, round after
//! round, for every job whose expressions are trees. It is written for reading and not for speed:
//! it evaluates expressions and decisions by recursion, and the event store, what is decided and
//! what is reached anew in each round.
#![tactic(auto)]

mod decision;
mod executing;
mod form;
pub mod laws;
mod live;
mod meaning;
mod reached;
mod round;
mod store;
mod value;

pub use meaning::closure;
