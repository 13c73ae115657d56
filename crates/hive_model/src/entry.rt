//! The journal of the scheduler.
use crate::Outcome;

/// One step of the scheduler, as the journal keeps it. The ticket of a claim is the index, from 0, of
/// its entry in the journal; a place is the number of a record in input order, from 1.
#[derive(Clone, Copy, Debug, PartialEq, Eq)]
pub enum Entry {
    /// An event took a slot.
    Admit {
        slot: u8,
        place: u64,
    },
    /// A worker took an algorithm of the event in the slot, and an instance of it, if it has any.
    Claim {
        slot: u8,
        algorithm: u16,
        clone: Option<u8>,
        worker: u8,
    },
    /// The result of a claim was booked.
    Done {
        ticket: u64,
        outcome: Outcome,
    },
    /// A claim was put back.
    Back {
        ticket: u64,
    },
    /// The event in the slot ended.
    Retire {
        slot: u8,
    },
    /// No further event comes.
    Last,
}
