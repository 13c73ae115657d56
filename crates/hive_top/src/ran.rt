//! What a call of the program came to.
ghost use Rattle.std.specs.Prelude.{◌≡◌, []};

use crate::status::Status;
use hive_model::{Entry, Many};
use std::alloc::Global;

/// What a call of the program came to.
#[derive(Drop)]
pub struct Ran {
    /// How it ended.
    pub status: Status,
    /// The journal of the scheduler. It is empty where no job was run.
    pub journal: Many<Entry>,
}

/// A call that ended so, in which no job was run.
pub(crate) fn without_run(alloc: Global, status: Status) -> Ran
    ensures status { result.status ≡ status }
    ensures journal { result.journal.items ≡ [] }
{
    Ran {
        status,
        journal: Many::new(alloc),
    }
}
