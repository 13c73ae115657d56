//! The pools of instances and units against the state of the scheduler: what is on loan is what the claims of
//! the events in the slots have.
//!
//! `ArePoolsOf job slots pools` says so. Each public function here does nothing: its contract is a law.
//! [`laws`] says that a step of the scheduler and the call of the pools that goes with it keep it so, that
//! the pools lend exactly where the state lets an algorithm be claimed, and that what is lent may come back.
#![tactic(auto)]

pub mod laws;
