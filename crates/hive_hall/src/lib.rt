//! The scheduler core, shared by several threads: one legal history for all of its participants.
//!
//! A [`Hall`] keeps a `scheduler_core::Desk` behind a ticket lock, and a queue of results beside it. Each
//! participant has a [`Pass`]. A call takes the lock, makes one call of the desk, and gives its answer.
//! Contracts see what a pass has seen of the hall's history, which items of it are its own, and which
//! results it queued and took. Each call says where in the history it took place, what it added there, and
//! that its answer is the desk's at that point (`specs/Says`, `specs/Calls`). [`Hall::close`] gives the
//! desk back, with the last history.
#![tactic(auto)]

mod answers;
mod board;
mod calls;
mod hall;
mod limits;
mod opening;
mod pass;
mod posting;
mod room;

pub use answers::{Ask, Book, Closed, Post};
pub use hall::Hall;
pub use limits::MOST_PASSES;
pub use pass::Pass;
