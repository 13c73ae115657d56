//! The history of a shared scheduler.
use crate::{Entry, EventRecord, Job};

/// One item of the history of a shared scheduler. Contracts speak of lists of these; no run makes one.
#[derive(Debug, Drop)]
pub enum Item {
    /// The first item: the job, and the number of slots.
    Opening(Job, u8),
    /// An entry Admit of the journal with its record: the event took the slot with that number, from 0,
    /// and stands at that place of the input, from 1.
    Admitted {
        slot: u8,
        place: u64,
        record: EventRecord,
    },
    /// Any other entry of the journal.
    Entered(Entry),
    /// The participants were told to stop.
    Stop,
}
