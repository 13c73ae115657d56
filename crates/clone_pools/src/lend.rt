//! What an attempt to borrow comes to.
use hive_model::Lent;

/// The answer of [`crate::Pools::lend`] (docs/PROCESSING.md, "Claims").
#[derive(Debug, Drop)]
pub enum Lend {
    /// An instance, or for a re-entrant algorithm a scratch of its own.
    Lent(Lent),
    /// Each instance is lent, or a resource that the algorithm names has no unit left.
    NotFree,
    /// There was no memory for the scratch of a re-entrant algorithm.
    NoMemory,
}
