//! The event in a seat.
ghost use Rattle.std.specs.Prelude.{◌≡◌, IfOk, length};
ghost use Rattle.event_slots.specs.Seats.{HasRoomFor};

use hive_model::{Decision, End, Job, Many};
use std::alloc::{AllocError, Global};

/// What a seat keeps of its event: the event's place in the input, from 1, and the room for its result.
#[derive(Drop)]
pub(crate) struct Guest {
    pub(crate) place: u64,
    pub(crate) decisions: Many<Decision>,
    pub(crate) ends: Many<End>,
}

impl Guest {
    /// The event at that place, with room for the decisions and ends of its result. The only error is that
    /// memory ran out.
    pub(crate) fn with_room(alloc: Global, job: &Job, place: u64) -> Result<Guest, AllocError>
        ensures place { IfOk result (λ it. it.place ≡ place) }
        ensures room { IfOk result
            (HasRoomFor (length job.now.sequences) (length job.now.algorithms)) }
    {
        Ok(Guest {
            place,
            decisions: Many::with_room(alloc, job.sequences().len())?,
            ends: Many::with_room(alloc, job.algorithms().len())?,
        })
    }
}
