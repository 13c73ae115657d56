//! How much a count holds.

/// The most that a count of stray results tells. It then stands still.
pub const MOST_COUNTED: u64 = u64::MAX;
