//! How a run is to go.

/// How many events are in flight, how many workers run them, and whether reports are left out.
#[derive(Clone, Copy, Debug, PartialEq, Eq)]
pub struct Plan {
    /// The number of slots, from 1 to [`hive_model::MOST_SLOTS`].
    pub slots: u8,
    /// The number of workers, from 0 to 32.
    pub workers: u8,
    /// Whether the last line alone is written.
    pub brief: bool,
}
