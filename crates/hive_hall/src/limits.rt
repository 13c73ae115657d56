//! How many may take part.

/// The most passes of a hall: 32 workers, and who admits and retires.
pub const MOST_PASSES: u8 = 33;
