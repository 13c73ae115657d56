//! How much the queue holds.

/// The most results that wait in the queue.
pub const MOST_WAITING: usize = 64;
