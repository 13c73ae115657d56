//! Why an options text has no tables of the right shape.
ghost use Rattle.std.specs.Prelude.{◌≡◌};
ghost use Rattle.text_model.specs.declared.options_refusal.OptionsRefusal.TheVariants.{NoMemory};

use hive_model::Text;
use std::alloc::{AllocError, AllocFailed};
use thiserror::Error;

/// The first thing that is wrong with the shape of an options text (docs/FORMATS.md, "Refusals of
/// options"). A path leads to the value, as `algorithm.2.inputs.1`: tables and elements count from
/// 1.
#[derive(Debug, PartialEq, Eq, Drop, Error)]
pub enum OptionsRefusal {
    /// The text is no TOML.
    #[error("the text is no TOML")]
    Toml,
    /// The table has a key that isn't known there.
    #[error("a key of {} isn't known", .path.as_str())]
    Unknown { path: Text },
    /// A key that is required is absent.
    #[error("{} is missing", .path.as_str())]
    Missing { path: Text },
    /// The value is of another kind than the one that is asked.
    #[error("{} is of the wrong kind", .path.as_str())]
    Field { path: Text },
    /// The text should be a name and isn't.
    #[error("{} is no name", .path.as_str())]
    Name { path: Text },
    /// A number is out of range, an array has too many elements, or a text is none of the words that
    /// are asked.
    #[error("{} is out of range", .path.as_str())]
    Range { path: Text },
    /// Memory ran out.
    #[error("memory ran out")]
    NoMemory,
}

impl From<AllocError> for OptionsRefusal {
    ghost from_gives = { λ _ e. e ≡ NoMemory };

    fn from(_error: AllocError) -> Self {
        OptionsRefusal::NoMemory
    }
}

impl<T: Drop> From<AllocFailed<T>> for OptionsRefusal {
    ghost from_gives = { λ _ e. e ≡ NoMemory };

    fn from(_error: AllocFailed<T>) -> Self {
        OptionsRefusal::NoMemory
    }
}
