//! Why a text is no expression.
ghost use Rattle.std.specs.Prelude.{◌≡◌};
ghost use Rattle.text_model.specs.declared.expr_refusal.ExprRefusal.TheVariants.{NoMemory};

use std::alloc::{AllocError, AllocFailed};
use thiserror::Error;

/// Why a text is no expression of the wanted kind: the first cause, phase after phase
/// (docs/FORMATS.md, "Refusals of an expression"). Places are bytes from 0.
#[derive(Clone, Copy, Debug, PartialEq, Eq, Error)]
pub enum ExprRefusal {
    /// The text is over 1,024 bytes.
    #[error("the text is over 1,024 bytes")]
    TooLong,
    /// A byte that begins no token, or the first token that can't continue, or the text's length
    /// where it ends too soon.
    #[error("unexpected at byte {at}")]
    Unexpected { at: u32 },
    /// A literal over 9223372036854775807.
    #[error("the number at byte {at} is too large")]
    Number { at: u32 },
    /// A bracket or a sign that makes more than 64 stand open at once.
    #[error("more than 64 brackets and signs are open at byte {at}")]
    TooDeep { at: u32 },
    /// A name that is no visible handle, or a function that there isn't.
    #[error("unknown name at byte {at}")]
    UnknownName { at: u32 },
    /// Over 256 nodes.
    #[error("over 256 nodes")]
    TooMany,
    /// An operator, sign or function whose operands have the wrong kind or number, or a root of
    /// another kind than the wanted one.
    #[error("wrong kind or number of operands at byte {at}")]
    Kind { at: u32 },
    /// Memory ran out.
    #[error("memory ran out")]
    NoMemory,
}

impl From<AllocError> for ExprRefusal {
    ghost from_gives = { λ _ e. e ≡ NoMemory };

    fn from(_error: AllocError) -> Self {
        ExprRefusal::NoMemory
    }
}

impl<T: Drop> From<AllocFailed<T>> for ExprRefusal {
    ghost from_gives = { λ _ e. e ≡ NoMemory };

    fn from(_error: AllocFailed<T>) -> Self {
        ExprRefusal::NoMemory
    }
}
