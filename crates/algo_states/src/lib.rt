//! The state of each algorithm of one event, kept up to date.
//!
//! Contracts see a [`StateTable`] as what was told of the event: which algorithms are reached, which are scheduled,
//! how each ended, and which data handles have arrived. [`StateTable::next_ready`] finds the next algorithm that can
//! run from a few words of bits.
#![tactic(auto)]

mod founding;
mod state;
mod table;
mod waiting;

pub use state::State;
pub use table::StateTable;
