//! Events leave their slots.
ghost use Rattle.std.specs.Prelude.{◌≡◌, ◌-◌, ◌≤◌, IsSomeAnd, length, slice_get};
ghost use Rattle.scheduler_core.specs.Says.{RetireSays};
ghost use Rattle.scheduler_core.specs.State.{IsDesk};

use crate::answers::Finished;
use crate::desk::Desk;
use crate::journal::enter;
use hive_model::{Entry, EventRecord};

impl Desk {
    /// Ends an event in which nothing is outstanding and nothing can be claimed, and gives its result
    /// (docs/PROCESSING.md, "How an event ends"). `None` exactly where there is no such event. It takes no memory.
    pub fn retire(&mut self) -> Option<Finished>
        ensures says { RetireSays self.old result self.new }
        ensures desk { IsDesk self.new }
    {
        let slot = self.slots.settled(&self.job)?;
        let place = self.slots.place(slot)?;
        let number = number_at(self.admitted.as_slice(), place);
        let result = self.slots.retire(&self.job, slot, number);
        enter(&mut self.journal, Entry::Retire { slot });
        self.owed -= 1;
        Some(Finished { place, result })
    }
}

/// The number of the event of a record that was admitted at that place, from 1.
fn number_at(records: &[EventRecord], place: u64) -> u64
    requires some { 1 ≤ place }
    requires within { place ≤ length records.now }
    ensures { IsSomeAnd (slice_get records.now (place - 1)) (λ event. result ≡ event.event) }
{
    let record = &records[(place - 1) as usize];
    record.event
}
