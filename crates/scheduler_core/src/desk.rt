//! The scheduler core.
ghost use Rattle.std.specs.Prelude.{◌≡◌, ◌≤◌, IfOk, length, map};
ghost use Rattle.std.specs.Arc.{arc_value};
ghost use Rattle.hive_model.specs.Valid.{IsValidJob};
ghost use Rattle.hive_model.specs.declared.limits.TheConstants.{MOST_SLOTS};
ghost use Rattle.scheduler_core.specs.Says.{LastSays, opening_desk};
ghost use Rattle.scheduler_core.specs.State.{IsDesk};

use crate::answers::Said;
use crate::journal::enter;
use event_slots::Slots;
use hive_model::{Entry, EventRecord, Job, Many};
use std::alloc::{AllocError, Global};
use std::marker::Model;
use std::sync::Arc;

/// One scheduler: events in slots, the claims that are outstanding, and the journal of all that happened
/// (docs/PROCESSING.md, "The journal").
///
/// Contracts see the job, the number of slots, the journal and the records that were admitted. The state is the
/// journal's replay over these. A call that gives a claim, a result or an answer appends exactly one entry, or none.
#[derive(Drop)]
pub struct Desk {
    pub(crate) job: Arc<Job>,
    pub(crate) slots: Slots,
    pub(crate) journal: Many<Entry>,
    pub(crate) admitted: Many<EventRecord>,
    pub(crate) closed: bool,
    /// entries that are still to come, whatever else does; the journal has room for them
    pub(crate) owed: usize,
}

impl Model for Desk {
    ghost use Rattle.std.specs.Prelude.{length};
    ghost use Rattle.std.specs.Arc.{arc_value};
    ghost use Rattle.hive_model.specs.History.{DeskState};
    ghost use Rattle.scheduler_core.specs.State.{IsKept};

    ghost Value = { DeskState };

    ghost view = { λ it. record {
      job = arc_value it.job;
      slots = length it.slots.seats;
      journal = it.journal.items;
      admitted = it.admitted.items;
    } };

    ghost invariant = { λ it.
        IsKept (arc_value it.job) it.admitted.items it.journal.items it.slots it.closed it.owed it.journal.spare };
}

impl Desk {
    /// A desk for a job with so many slots, from 1 to [`MOST_SLOTS`](hive_model::MOST_SLOTS). Nothing is in flight yet,
    /// and the journal is empty. The only error is that memory ran out.
    pub fn new(alloc: Global, job: Arc<Job>, slots: u8) -> Result<Desk, AllocError>
        requires valid { IsValidJob (arc_value job) }
        requires some { 1 ≤ slots }
        requires few { slots ≤ MOST_SLOTS }
        ensures opening { IfOk result (λ it. it ≡ opening_desk (arc_value job) slots) }
        ensures desk { IfOk result IsDesk }
    {
        let room = Slots::new(alloc, &job, slots)?;
        let journal = Many::with_room(alloc, 1)?;
        Ok(Desk {
            job,
            slots: room,
            journal,
            admitted: Many::new(alloc),
            closed: false,
            owed: 1,
        })
    }

    /// Says that no further event comes. It takes no memory.
    pub fn last(&mut self) -> Said
        ensures says { LastSays self.old result self.new }
        ensures desk { IsDesk self.new }
    {
        if self.closed {
            return Said::Before;
        }
        enter(&mut self.journal, Entry::Last);
        self.closed = true;
        self.owed -= 1;
        Said::Now
    }

    /// The job.
    pub fn job(&self) -> &Job
        ensures job { result.now ≡ self.now.job }
        ensures desk { IsDesk self.now }
    {
        &self.job
    }

    /// The job, to be shared. The only error is that memory ran out.
    pub fn share_job(&self) -> Result<Arc<Job>, AllocError>
        ensures job { IfOk result (λ it. arc_value it ≡ self.now.job) }
        ensures desk { IsDesk self.now }
    {
        Arc::try_clone(&self.job)
    }

    /// How many slots there are.
    pub fn slots(&self) -> u8
        ensures slots { result ≡ self.now.slots }
        ensures desk { IsDesk self.now }
    {
        self.slots.len()
    }

    /// The entries so far, oldest first.
    pub fn journal(&self) -> &[Entry]
        ensures entries { result.now ≡ self.now.journal }
        ensures desk { IsDesk self.now }
    {
        self.journal.as_slice()
    }

    /// The records that were admitted, in the order of their places.
    pub fn admitted(&self) -> &[EventRecord]
        ensures records { result.now ≡ self.now.admitted }
        ensures desk { IsDesk self.now }
    {
        self.admitted.as_slice()
    }

    /// The journal, where the desk is no longer needed. It takes no memory.
    pub fn into_journal(self) -> Many<Entry>
        ensures entries { result.items ≡ self.journal }
        ensures desk { IsDesk self }
    {
        self.journal
    }
}
