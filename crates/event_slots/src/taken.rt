//! What an attempt to claim comes to.
use expr_code::Claimed;

/// The answer of [`crate::Slots::claim`] (docs/PROCESSING.md, "Claims").
pub enum Taken {
    /// The slot of the event, and the work that is handed out.
    Job(u8, Claimed),
    /// No event in flight has an algorithm that may be claimed now.
    Nothing,
    /// There is one, but there was no memory for it.
    NoMemory,
}
