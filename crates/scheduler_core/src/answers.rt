//! What the calls of a desk answer.
use expr_code::Claimed;
use hive_model::{EventRecord, EventResult};

/// An event that ended: its place in the input, from 1, and its result.
#[derive(Debug, Drop)]
pub struct Finished {
    pub place: u64,
    pub result: EventResult,
}

/// What came of a record that was brought. Where it wasn't admitted it is handed back.
#[derive(Debug, Drop)]
pub enum Admit {
    /// It has the slot of this number, and this place in the input, from 1.
    At { slot: u8, place: u64 },
    /// It was said before that no further event comes.
    Closed(EventRecord),
    /// Every slot is busy.
    Full(EventRecord),
    /// Memory ran out, and nothing has changed.
    NoMemory(EventRecord),
}

/// What there is to do for a worker that asks.
pub enum Claim {
    /// This algorithm is the worker's to perform.
    Job(Claimed),
    /// Nothing can be claimed now. So many claims are outstanding.
    Idle { running: u32 },
    /// Every event has ended, and no further one comes.
    Over,
    /// Memory ran out, and nothing has changed.
    NoMemory,
}

/// What came of a claim that was given back, performed or not.
#[derive(Debug, Drop)]
pub enum Give<T> {
    Booked,
    /// No such claim is outstanding here. It is handed back.
    NotOutstanding(T),
}

/// Whether it was said now that no further event comes, or before.
#[derive(Clone, Copy, Debug, PartialEq, Eq)]
pub enum Said {
    Now,
    Before,
}

/// What came of calling a claim back whose worker is gone.
#[derive(Clone, Copy, Debug, PartialEq, Eq)]
pub enum Recall {
    /// The oldest one was put back.
    Put,
    /// No claim is outstanding.
    Nothing,
    /// Memory ran out, and nothing has changed.
    NoMemory,
}
