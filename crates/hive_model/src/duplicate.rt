//! Copies that can be refused.
ghost use Rattle.std.specs.Prelude.{◌≡◌, IfOk, Option};
ghost use Rattle.std.specs.Prelude.{Some, None};

use std::alloc::{AllocError, Global};

/// A value that can be copied, where memory allows.
pub trait Duplicate {
    /// An equal value of its own. The only error is running out of memory.
    fn copy(&self, alloc: Global) -> Result<Self, AllocError>
        ensures { IfOk result (λ it. it ≡ self.now) };
}

impl<T: Duplicate> Duplicate for Option<T> {
    fn copy(&self, alloc: Global) -> Result<Self, AllocError> {
        match self {
            Some(value) => Ok(Some(value.copy(alloc)?)),
            None => Ok(None),
        }
    }
}
