//! The states of an algorithm.

/// Where an algorithm stands in an event (docs/PROCESSING.md, "Enabled").
#[derive(Clone, Copy, Debug, PartialEq, Eq)]
pub enum State {
    /// Control flow has not reached it.
    Initial,
    /// It is reached, and an input is missing.
    ControlReady,
    /// It is reached, and all its inputs have arrived.
    DataReady,
    /// It was handed out, and has not come back.
    Scheduled,
    Accepted,
    Rejected,
    /// A fault came up in it.
    Error,
}
