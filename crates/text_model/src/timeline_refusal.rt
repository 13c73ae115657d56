//! Why a text is no timeline.
ghost use Rattle.std.specs.Prelude.{◌≡◌};
ghost use Rattle.text_model.specs.declared.timeline_refusal.TimelineRefusal.TheVariants.{NoMemory};

use std::alloc::{AllocError, AllocFailed};
use thiserror::Error;

/// What is wrong with a line of a timeline (docs/FORMATS.md, "Timeline"). NoEnd is looked for first,
/// then Word, Fields and Number.
#[derive(Clone, Copy, Debug, PartialEq, Eq, Error)]
pub enum TimelineCause {
    /// The first part is none of the six words.
    #[error("the first part is no word of a timeline")]
    Word,
    /// The number of parts is wrong, or a part is no outcome or fault where one is asked.
    #[error("a part is missing, or too many, or no outcome or fault")]
    Fields,
    /// A part is no number without leading zeros, or doesn't fit where it stands.
    #[error("a part is no number that fits there")]
    Number,
    /// The line has no line feed.
    #[error("the line has no line feed")]
    NoEnd,
}

/// Why a text is no timeline.
#[derive(Clone, Copy, Debug, PartialEq, Eq, Error)]
pub enum TimelineRefusal {
    /// The first bad line, by its number from 1, and what is wrong with it.
    #[error("line {line}: {cause}")]
    Bad { line: u64, cause: TimelineCause },
    /// Memory ran out.
    #[error("memory ran out")]
    NoMemory,
}

impl From<AllocError> for TimelineRefusal {
    ghost from_gives = { λ _ e. e ≡ NoMemory };

    fn from(_error: AllocError) -> Self {
        TimelineRefusal::NoMemory
    }
}

impl<T: Drop> From<AllocFailed<T>> for TimelineRefusal {
    ghost from_gives = { λ _ e. e ≡ NoMemory };

    fn from(_error: AllocFailed<T>) -> Self {
        TimelineRefusal::NoMemory
    }
}
