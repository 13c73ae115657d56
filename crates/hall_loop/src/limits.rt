//! How many may work.

/// The most workers of a run.
pub const MOST_WORKERS: u8 = 32;
