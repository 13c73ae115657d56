//! One instance of an algorithm.
use hive_model::Scratch;

/// An instance, which keeps its scratch from the start.
#[derive(Debug, Drop)]
pub(crate) enum Instance {
    /// Nobody has it. Its scratch holds no inputs.
    Idle(Scratch),
    /// The event at that place of the input has it.
    Lent(u64),
}
