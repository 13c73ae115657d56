//! The event stores of all events in flight, each in a slot of its own.
//!
//! Contracts see a [`Whiteboard`] as the list of its slots, each empty or with the store of one event, and the
//! number of places that a store has. An event's store goes in by [`Whiteboard::take_slot`] and out by
//! [`Whiteboard::recycle`], so no product stays behind in a slot.
#![tactic(auto)]

mod board;

pub use board::Whiteboard;
