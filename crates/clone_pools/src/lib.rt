//! The instances of all algorithms, and the units of all resources, lent for one execution each.
//!
//! Contracts see [`Pools`] as a pool for each algorithm, with the place in the input of the event that each
//! instance is lent to, and the number of units of each resource. What goes out by [`Pools::lend`] comes back by
//! [`Pools::give_back`]; no instance is lent twice, and never more units than there are.
#![tactic(auto)]

mod instance;
mod lend;
mod pool;
mod pools;
mod room;
mod units;

pub use lend::Lend;
pub use pools::Pools;
