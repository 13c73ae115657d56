//! Why a cut node would cut off what something else needs.
use hive_model::Text;
use thiserror::Error;

/// The first thing that is wrong with the sequences that have `cut` (docs/FORMATS.md, "Refusals of
/// options"), looked for in this order. An algorithm is below a sequence where it has a leaf there.
#[derive(Debug, PartialEq, Eq, Drop, Error)]
pub enum CutRefusal {
    /// The first sequence with `cut` that is sequential or not short-circuit.
    #[error("{} has cut and isn't concurrent and short-circuit", .sequence.as_str())]
    Kind { sequence: Text },
    /// The first algorithm that is below a sequence with `cut` and has more than one leaf in all.
    #[error("{} is cut off at one leaf and has another", .algorithm.as_str())]
    Shared { algorithm: Text },
    /// The first algorithm, then input, whose producer is below a sequence with `cut` that the
    /// algorithm isn't below.
    #[error("{} takes the input {}, which may be cut off", .algorithm.as_str(), .handle.as_str())]
    Input { algorithm: Text, handle: Text },
}
