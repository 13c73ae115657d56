//! What a run came to.
ghost use Rattle.std.specs.Prelude.{◌≡◌, []};

use crate::ending::Ending;
use hive_model::{Entry, Many};
use report_text::Counts;
use std::alloc::Global;

/// What a run came to.
#[derive(Drop)]
pub struct Pumped {
    /// How it ended.
    pub ending: Ending,
    /// The events that ended, and their statuses.
    pub counts: Counts,
    /// The journal of the scheduler.
    pub journal: Many<Entry>,
}

/// Memory ran out before anything was done.
pub(crate) fn nothing(alloc: Global) -> Pumped
    ensures ending { result.ending ≡ Ending.NoMemory }
    ensures counts { result.counts ≡ record { events = 0; ok = 0; failed = 0; stalled = 0 } }
    ensures journal { result.journal.items ≡ [] }
{
    Pumped {
        ending: Ending::NoMemory,
        counts: Counts::new(),
        journal: Many::new(alloc),
    }
}
