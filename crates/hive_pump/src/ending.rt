//! How a run ended.
use std::alloc::AllocError;
use text_model::RecordRefusal;

/// How a run ended.
#[derive(Clone, Copy, Debug, PartialEq, Eq)]
pub enum Ending {
    /// The input was read to its end.
    All,
    /// A line of the input was refused.
    Refused(RecordRefusal),
    /// The source failed.
    Source,
    /// The sink failed.
    Sink,
    /// Memory ran out.
    NoMemory,
}

impl From<AllocError> for Ending {
    ghost use Rattle.std.specs.Prelude.{◌≡◌};
    ghost use Rattle.hive_pump.specs.declared.ending.Ending.TheVariants.{NoMemory};

    ghost from_gives = { λ _ e. e ≡ NoMemory };

    fn from(_error: AllocError) -> Self {
        Ending::NoMemory
    }
}
