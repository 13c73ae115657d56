//! The decisions of one event and what control flow has reached, kept up to date as outcomes come in.
//!
//! Contracts see a [`TreeTable`] as the forest of a job and the list of outcomes settled so far: what is
//! decided, reached and withdrawn is what the definitions say for these outcomes. [`TreeTable::settle`] takes
//! one outcome more and tells the algorithms that are newly reached, and [`TreeTable::clear`] begins anew.
//!
//! Inside, each node keeps what its members say and how many of them are undecided, so that an outcome costs
//! what it changes.
#![tactic(auto)]

mod deciding;
mod edge;
mod entering;
mod founding;
mod marks;
mod node;
mod table;
mod telling;
mod withdrawing;

pub use table::TreeTable;
