//! Where texts are fetched by name.
ghost use Rattle.std.specs.Prelude.{◌≡◌, ℕ, ◌≤◌, List, [], Option, length, OnOk, OnErr};
ghost use Rattle.hive_edge.specs.Shelf.{Files, Fetches, ShelfCause};
ghost use Rattle.hive_edge.specs.declared.shelf.ShelfFault.TheVariants.{NoMemory};

use std::alloc::AllocError;
use thiserror::Error;

/// Why a text wasn't fetched.
#[derive(Clone, Copy, Debug, PartialEq, Eq, Error)]
pub enum ShelfFault {
    /// The outside failed, or no text has the name: the count of faults rose, or stands at its last value.
    #[error("the outside failed, or no text has the name")]
    Failed,
    /// The text is longer than the limit.
    #[error("the text is longer than the limit")]
    Over,
    /// Memory ran out.
    #[error("memory ran out")]
    NoMemory,
}

impl From<AllocError> for ShelfFault {
    ghost from_gives = { λ _ e. e ≡ NoMemory };

    fn from(_: AllocError) -> Self {
        ShelfFault::NoMemory
    }
}

/// A store of named texts.
pub trait Shelf {
    /// The names with their texts; `None` where the shelf doesn't tell them.
    ghost files: { Self → Option Files };

    /// How often the shelf has failed. The count never falls, and stands still at 2 ^ 64 - 1.
    ghost faults: { Self → ℕ };

    /// A name that may be asked for: a shelf without faults must have it, and any other takes each name.
    ghost has: { Self → List ℕ → Type 0 };

    /// Replaces `out` by the text under `name`, which may have `limit` bytes at most. After an error
    /// `out` is empty. No answer changes the files.
    fn fetch(&mut self, name: &str, limit: usize, out: &mut Vec<u8>) -> Result<(), ShelfFault>
        requires { has self.old name.now }
        ensures text { Fetches (files self.old) name.now limit result out.new.items }
        ensures limit { OnOk result (length out.new.items ≤ limit) }
        ensures none { OnErr result (out.new.items ≡ []) }
        ensures files { files self.new ≡ files self.old }
        ensures names { (other : List ℕ) → has self.old other → has self.new other }
        ensures cause { ShelfCause (faults self.old) (faults self.new) result };
}
