//! Generated records written to a sink, piece by piece.
#![tactic(auto)]

mod sending;

pub use sending::{OutputFault, send_records};
