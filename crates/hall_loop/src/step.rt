//! What a step of the loop came to.
use hive_model::EventResult;

/// What one step of a [`HallLoop`](crate::HallLoop) came to.
#[derive(Debug, Drop)]
pub enum Step {
    /// The result of the next record, in input order.
    Result(EventResult),
    /// An algorithm was performed or its result booked, or an event ended.
    Went,
    /// There was nothing to do. Workers may be performing.
    Idle,
    /// Nothing will be claimed any more.
    Over,
    /// Memory ran out. Nothing went out, and a later step may succeed.
    NoMemory,
    /// Another participant admits or ends events, too, and this loop has lost track. It can't come where all others
    /// are workers.
    Lost,
}

/// Why an event wasn't admitted.
#[derive(Clone, Copy, Debug, PartialEq, Eq)]
pub enum Fault {
    /// Memory ran out, or as many events were admitted as can be counted, 4,294,967,295.
    NoMemory,
    /// As [`Step::Lost`].
    Lost,
}
