//! Room for the passes of a hall's queue.
ghost use Rattle.std.specs.Prelude.{◌≡◌, ◌≤◌, IfOk, []};
ghost use Rattle.hive_hall.specs.declared.limits.TheConstants.{MOST_PASSES};

use crate::limits::MOST_PASSES;
use action_queue::QueuePass;
use hive_model::Many;
use std::alloc::{AllocError, Global};

/// An empty list with room for the queue's passes of any hall, so that a hall can be closed without memory.
#[derive(Drop)]
pub(crate) struct Room {
    pub(crate) passes: Many<QueuePass>,
    ghost empty: { passes.items ≡ [] },
    ghost enough: { MOST_PASSES ≤ passes.spare },
}

impl Room {
    pub(crate) fn new(alloc: Global) -> Result<Room, AllocError> {
        let passes = Many::with_room(alloc, usize::from(MOST_PASSES))?;
        Ok(Room { passes })
    }
}
