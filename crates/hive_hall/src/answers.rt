//! What the calls of a hall answer, where that isn't an answer of the desk.
use action_queue::Left;
use expr_code::Done;
use scheduler_core::{Claim, Desk};

/// What there is to do for a participant that asks.
pub enum Ask {
    /// The desk's answer.
    Told(Claim),
    /// The participants were told to stop, and the desk wasn't asked.
    Stopped,
}

/// What came of a result that was posted.
#[derive(Drop)]
pub enum Post {
    /// It waits in the queue.
    Queued,
    /// The queue was full, and the result was booked.
    Booked,
    /// The queue was full, and no such claim is outstanding. The result is handed back.
    NotOutstanding(Done),
}

/// What came of booking a result that waited.
#[derive(Drop)]
pub enum Book {
    /// A result was taken and booked.
    Booked,
    /// No result waited.
    Empty,
    /// A result was taken whose claim isn't outstanding. It is handed out.
    NotOutstanding(Done),
}

/// What a hall leaves behind.
#[derive(Drop)]
pub struct Closed {
    /// The scheduler core, as the last call left it.
    pub desk: Desk,
    /// The results that were queued and weren't taken.
    pub left: Left,
}
