//! What a turn of the loop came to.
use hive_model::EventResult;

/// What one turn of an [`EventLoop`](crate::EventLoop) came to (docs/PROCESSING.md, "The loop").
#[derive(Debug, Drop)]
pub enum Turn {
    /// The result of the next record, in input order.
    Result(EventResult),
    /// An algorithm was performed and booked, or an event ended. There is less to do than before.
    Went,
    /// Nothing is in flight, every result was handed out, and a further event may be admitted.
    Idle,
    /// Every event has ended, every result was handed out, and it was said that no further event comes.
    Over,
    /// Memory ran out. Nothing came in or went out, and a later turn may succeed.
    NoMemory,
}
