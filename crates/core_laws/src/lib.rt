//! Laws of runs: what is true of every journal that the scheduler can keep, whoever claims what and when.
//!
//! Each public function here does nothing: its contract is the law. [`events`] says what an entry of the
//! journal leaves true of the event that it is about, [`runs`] what that makes true of every state of a
//! run, [`complete`] what a complete run comes to, [`statuses`] what the status of an ended event tells,
//! and [`journals`] how journals and inputs grow.
#![tactic(auto)]

pub mod complete;
pub mod events;
pub mod journals;
pub mod runs;
pub mod statuses;
