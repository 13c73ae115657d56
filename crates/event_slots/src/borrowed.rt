//! What is borrowed for one execution.
use hive_model::{Algorithm, Lent};
use std::sync::Arc;

/// The answer of [`crate::borrowing::borrow`].
#[derive(Drop)]
pub(crate) enum Borrowed {
    /// The algorithm, and an instance that holds its inputs.
    Lent(Arc<Algorithm>, Lent),
    /// No instance is free, or a resource has no unit left.
    NotFree,
    /// There was no memory.
    NoMemory,
}
