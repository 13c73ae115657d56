//! Why handles have no producers, or producers wait for one another.
ghost use Rattle.std.specs.Prelude.{◌≡◌};
ghost use Rattle.text_model.specs.declared.graph_refusal.GraphRefusal.TheVariants.{NoMemory};

use hive_model::Text;
use std::alloc::{AllocError, AllocFailed};
use thiserror::Error;

/// The first thing that is wrong with who produces and who takes which handle (docs/FORMATS.md,
/// "Refusals of options"), looked for in this order.
#[derive(Debug, PartialEq, Eq, Drop, Error)]
pub enum GraphRefusal {
    /// The first handle, in handle order, whose name an earlier one has.
    #[error("the handle {} has two producers", .handle.as_str())]
    TwoProducers { handle: Text },
    /// The first algorithm and input, in written order, of which no handle has the name.
    #[error("{} takes the input {}, which has no producer", .algorithm.as_str(), .handle.as_str())]
    NoProducer { algorithm: Text, handle: Text },
    /// The first algorithm, in written order, that waits for an output that waits for it.
    #[error("{} needs its own output", .algorithm.as_str())]
    DataCycle { algorithm: Text },
    /// Memory ran out.
    #[error("memory ran out")]
    NoMemory,
}

impl From<AllocError> for GraphRefusal {
    ghost from_gives = { λ _ e. e ≡ NoMemory };

    fn from(_error: AllocError) -> Self {
        GraphRefusal::NoMemory
    }
}

impl<T: Drop> From<AllocFailed<T>> for GraphRefusal {
    ghost from_gives = { λ _ e. e ≡ NoMemory };

    fn from(_error: AllocFailed<T>) -> Self {
        GraphRefusal::NoMemory
    }
}
