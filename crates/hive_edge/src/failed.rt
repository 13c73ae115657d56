//! The one error of a source and a sink.
use thiserror::Error;

/// The outside failed: the count of faults of what was called rose, or stands at its last value.
#[derive(Clone, Copy, Debug, PartialEq, Eq, Error)]
#[error("the outside failed")]
pub struct Failed;
