//! The scheduler: events in slots, algorithms claimed, performed and booked, and a journal of it all.
//!
//! Contracts see a [`Desk`] as the job, the number of slots, the journal and the records that were admitted, and
//! nothing more: its state is the journal's replay over these records (docs/PROCESSING.md, "The journal"). Each call
//! has one named relation between the desk before, its answer and the desk after. What is true of every journal
//! that a desk can keep, whoever claims what and when, stands in [`laws`].
#![tactic(auto)]

mod admitting;
mod answers;
mod booking;
mod claiming;
mod desk;
mod journal;
pub mod laws;
mod retiring;

pub use answers::{Admit, Claim, Finished, Give, Recall, Said};
pub use desk::Desk;
