//! Events take slots.
ghost use Rattle.std.specs.Prelude.{◌≡◌, ◌<◌, ◌≤◌, [], ◌∷◌, ◌++◌};
ghost use Rattle.hive_model.specs.Fits.{Fits};
ghost use Rattle.scheduler_core.specs.Says.{AdmitSays};
ghost use Rattle.scheduler_core.specs.State.{IsDesk};

use crate::answers::Admit;
use crate::desk::Desk;
use crate::journal::{enter, reserve};
use hive_model::{Entry, EventRecord, Many};
use std::alloc::Global;

impl Desk {
    /// Admits an event: it takes an empty slot, and the place after that of the last one (docs/PROCESSING.md,
    /// "Slots"), and both are told. Room is made in the journal for all that the events in flight come to, so that no
    /// later call needs memory for an entry, but for claims of what was put back.
    pub fn admit(&mut self, alloc: Global, event: EventRecord) -> Admit
        requires { Fits self.old.job event }
        ensures says { AdmitSays self.old event result self.new }
        ensures desk { IsDesk self.new }
    {
        if self.closed {
            return Admit::Closed(event);
        }
        if self.slots.is_full() {
            return Admit::Full(event);
        }
        let own = entries_of(self.job.algorithms().len(), self.slots.len());
        if reserve(&mut self.journal, self.owed, own).is_err()
            || self.admitted.reserve(1).is_err()
        {
            return Admit::NoMemory(event);
        }
        let place = self.admitted.as_slice().len() as u64 + 1;
        match self.slots.admit(alloc, &self.job, place, &event) {
            Ok(slot) => {
                enter(&mut self.journal, Entry::Admit { slot, place });
                self.owed += 1;
                keep(&mut self.admitted, event);
                Admit::At { slot, place }
            }
            Err(_) => Admit::NoMemory(event),
        }
    }
}

/// How many entries the events of all slots come to at most, if nothing is put back: for each event a claim and its end
/// for each algorithm, its own Admit and its own Retire.
fn entries_of(algorithms: usize, slots: u8) -> usize
    ensures { 2 ≤ result }
{
    let own = algorithms.saturating_mul(2).saturating_add(2);
    own.saturating_mul(usize::from(slots)).max(2)
}

/// A record that has its room.
fn keep(admitted: &mut Many<EventRecord>, event: EventRecord)
    requires { 0 < admitted.old.spare }
    ensures { admitted.new.items ≡ admitted.old.items ++ event ∷ [] }
{
    match admitted.push(event) {
        Ok(()) => {}
        Err(_) => unreachable!(),
    }
}
