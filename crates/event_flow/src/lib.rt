//! What one event in flight knows of itself while it is scheduled.
//!
//! Contracts see a [`Flow`] as the forest and the inputs of its job, how each algorithm ended, which handles
//! have arrived, and which algorithms are claimed. What can be claimed next ([`Flow::next_claimable`]) and
//! whether the event is settled ([`Flow::is_settled`]) follow from these by the rules of docs/PROCESSING.md,
//! and [`laws`] says that they are the scheduler's own. After [`Flow::new`] no call takes memory.
//!
//! Inside, the table of decisions (`decision_nodes`) and the table of states (`algo_states`) are kept in step,
//! so that a call costs what it changes.
#![tactic(auto)]

mod arriving;
mod claims;
mod flow;
mod held;
pub mod laws;
mod telling;

pub use flow::Flow;
pub use held::Held;
