//! Why sequences are no forest with one top.
ghost use Rattle.std.specs.Prelude.{◌≡◌};
ghost use Rattle.text_model.specs.declared.tree_refusal.TreeRefusal.TheVariants.{NoMemory};

use hive_model::Text;
use std::alloc::{AllocError, AllocFailed};
use thiserror::Error;

/// The first thing that is wrong with the sequences and their members (docs/FORMATS.md, "Refusals of
/// options"), looked for in this order; each names the first in written order, members from the
/// left.
#[derive(Debug, PartialEq, Eq, Drop, Error)]
pub enum TreeRefusal {
    /// No sequence has the top's name.
    #[error("there is no sequence {} for the top", .name.as_str())]
    UnknownTop { name: Text },
    /// A member that is neither an algorithm nor a sequence.
    #[error("the member {} of the sequence {} isn't known", .name.as_str(), .sequence.as_str())]
    UnknownMember { sequence: Text, name: Text },
    /// A sequence that stands as a member a second time.
    #[error("the sequence {} is a member twice", .sequence.as_str())]
    SharedSequence { sequence: Text },
    /// A sequence that stands below itself.
    #[error("the sequence {} stands below itself", .sequence.as_str())]
    SequenceCycle { sequence: Text },
    /// The top is a member of a sequence.
    #[error("the top is a member of a sequence")]
    TopIsMember,
    /// A sequence with more than 64 sequences one below the other, itself among them.
    #[error("over 64 sequences stand one below the other from {} on", .sequence.as_str())]
    TooDeep { sequence: Text },
    /// Over 1,024 members of all sequences together are algorithms.
    #[error("over 1,024 members are algorithms")]
    TooManyLeaves,
    /// Memory ran out.
    #[error("memory ran out")]
    NoMemory,
}

impl From<AllocError> for TreeRefusal {
    ghost from_gives = { λ _ e. e ≡ NoMemory };

    fn from(_error: AllocError) -> Self {
        TreeRefusal::NoMemory
    }
}

impl<T: Drop> From<AllocFailed<T>> for TreeRefusal {
    ghost from_gives = { λ _ e. e ≡ NoMemory };

    fn from(_error: AllocFailed<T>) -> Self {
        TreeRefusal::NoMemory
    }
}
