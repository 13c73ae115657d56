//! What an event decides, and how its algorithms and the event end.
use crate::{Fault, Place};

/// The value of a decision node (docs/PROCESSING.md, "Decisions").
#[derive(Clone, Copy, Debug, PartialEq, Eq)]
pub enum Decision {
    True,
    False,
    /// Not known, since a result that it depends on isn't there.
    Undecided,
}

/// The state in which an event leaves an algorithm (docs/PROCESSING.md, "Statuses").
#[derive(Clone, Copy, Debug, PartialEq, Eq)]
pub enum End {
    /// Control flow never reached it.
    Initial,
    /// Reached, but an input wasn't there.
    ControlReady,
    /// Reached and not run, and a cut node above it is decided.
    Withdrawn,
    Accepted,
    Rejected,
    Failed(Place, Fault),
}

/// How an event ends (docs/PROCESSING.md, "Statuses").
#[derive(Clone, Copy, Debug, PartialEq, Eq)]
pub enum EventStatus {
    Ok,
    /// An algorithm faulted.
    Failed,
    /// None faulted, and a reached algorithm has not run, though no decided cut node cut it off.
    Stalled,
}
