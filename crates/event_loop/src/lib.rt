//! The loop on one thread: events are admitted while there is room, algorithms are claimed, performed and
//! booked, and results go out in the order of the records.
//!
//! Contracts see an [`EventLoop`] as the desk that it runs, how many results were handed out, and the
//! counts of the events that ended (`specs/Loop`). [`EventLoop::turn`] does one step and says which.
//! [`Waiting`] keeps the results that come before their turn.
#![tactic(auto)]

mod bringing;
mod ending;
mod event_loop;
mod performing;
mod turn;
mod waiting;

pub use event_loop::EventLoop;
pub use turn::Turn;
pub use waiting::Waiting;
