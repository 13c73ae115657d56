//! The events in flight, each in a slot, with what they have on loan.
//!
//! Contracts see [`Slots`] as what stands for the slots of the scheduler's state (`AreSlotsOf`): each call
//! says which state its changes stand for. An event comes in by [`Slots::admit`], its algorithms go out by
//! [`Slots::claim`] and come back by [`Slots::complete`] or [`Slots::give_back`], and its result goes out
//! by [`Slots::retire`] (docs/PROCESSING.md, "Claims").
//!
//! All room that an event needs is taken when it is admitted, so what follows takes memory only for what a
//! claim hands out.
#![tactic(auto)]

mod admitting;
mod booking;
mod borrowed;
mod borrowing;
mod ending;
mod founding;
mod guest;
mod holding;
mod seat;
mod seats;
mod slots;
mod standing;
mod taken;

pub use slots::Slots;
pub use standing::Standing;
pub use taken::Taken;
