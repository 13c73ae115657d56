//! Claims that are outstanding.

/// A claim of an algorithm that is outstanding (docs/PROCESSING.md, "Scheduling").
#[derive(Clone, Copy, Debug, PartialEq, Eq)]
pub struct Held {
    /// The index, from 0, of its entry in the journal.
    pub ticket: u64,
    /// The instance that it has on loan; a re-entrant algorithm needs none.
    pub clone: Option<u8>,
}
