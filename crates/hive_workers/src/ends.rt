//! How a run ends.

/// Why a worker stopped asking.
#[derive(Clone, Copy, Debug, PartialEq, Eq)]
pub enum WorkerCause {
    /// Every event has ended, and no further one comes.
    Over,
    /// Memory ran out when it claimed, or when it performed.
    NoMemory,
    /// The participants of the hall were told to stop.
    Stopped,
}

/// What a worker did (docs/PROMISES.md, "Workers").
#[derive(Clone, Copy, Debug, PartialEq, Eq)]
pub struct WorkerEnd {
    /// The executions that it began: one for each claim of its own.
    pub performed: u64,
    /// The results that it queued or booked.
    pub given: u64,
    /// The claims that it put back.
    pub put_back: u64,
    /// The results and claims that were handed back to it, since no such claim was outstanding.
    pub handed_back: u64,
    /// The results that it took from the queue and for which no claim was outstanding, up to
    /// [`MOST_COUNTED`](crate::MOST_COUNTED).
    pub strays: u64,
    pub cause: WorkerCause,
}
