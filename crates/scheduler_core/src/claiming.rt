//! Workers take algorithms.
ghost use Rattle.std.specs.Prelude.{◌≡◌, List, Option};
ghost use Rattle.event_slots.specs.Slots.{AreSlotsOf};
ghost use Rattle.hive_model.specs.Job.{Job};
ghost use Rattle.hive_model.specs.Machine.{Busy};
ghost use Rattle.hive_model.specs.declared.entry.Entry.TheVariants as entry;
ghost use Rattle.scheduler_core.specs.Says.{ClaimSays, IsNothing};
ghost use Rattle.scheduler_core.specs.State.{IsDesk};

use crate::answers::Claim;
use crate::desk::Desk;
use crate::journal::{enter, reserve};
use event_slots::{Slots, Taken};
use expr_code::Claimed;
use hive_model::Entry;
use std::alloc::Global;

impl Desk {
    /// Hands an algorithm to a worker that control flow has reached and whose inputs are there, of the oldest event
    /// that has one, with an instance and units (docs/PROCESSING.md, "Claims"). The claim's ticket is the index of its
    /// entry in the journal. It stands until it is booked by [`Desk::done`] or put back by [`Desk::back`].
    pub fn claim(&mut self, alloc: Global, worker: u8) -> Claim
        ensures says { ClaimSays self.old worker result self.new }
        ensures desk { IsDesk self.new }
    {
        let ticket = self.journal.as_slice().len() as u64;
        match self.slots.claim(alloc, &self.job, ticket) {
            Taken::Job(slot, work) => {
                if reserve(&mut self.journal, self.owed, 2).is_err() {
                    self.slots.give_back(&self.job, slot, work.into_lent());
                    return Claim::NoMemory;
                }
                enter(&mut self.journal, entry_of(slot, worker, &work));
                self.owed += 1;
                Claim::Job(work)
            }
            Taken::Nothing => nothing(&self.slots, self.closed),
            Taken::NoMemory => Claim::NoMemory,
        }
    }
}

/// The entry of a claim.
fn entry_of(slot: u8, worker: u8, work: &Claimed) -> Entry
    ensures { result ≡ entry.Claim slot work.now.algorithm work.now.clone worker }
{
    Entry::Claim {
        slot,
        algorithm: work.algorithm(),
        clone: work.clone_number(),
        worker,
    }
}

/// What a worker hears where nothing can be claimed.
fn nothing(slots: &Slots, closed: bool) -> Claim
    ensures { (job : Job) (machine : List (Option Busy)) → AreSlotsOf job machine slots.now
        → IsNothing closed machine result }
{
    let empty = slots.is_empty();
    if closed && empty {
        return Claim::Over;
    }
    Claim::Idle {
        running: slots.outstanding(),
    }
}
