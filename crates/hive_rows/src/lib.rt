//! Tests that start threads, and so can't be rows of a program. No other crate stands on this one.
#![tactic(auto)]

#[cfg(test)]
mod claims;
#[cfg(test)]
mod results;
#[cfg(test)]
mod sharing;
#[cfg(test)]
mod turns;
mod worker;

pub use worker::Worker;
