//! The loop.
ghost use Rattle.std.specs.Prelude.{◌≡◌, ◌≤◌, ◌<◌, ◌↔◌, IfOk, IsTrue, OnErr, OnOk, length};
ghost use Rattle.std.specs.Arc.{arc_value};
ghost use Rattle.event_loop.specs.Loop.{Admits, Closes, HasRoom, IsLoop, NextHasEnded, TurnSays, opening_loop};
ghost use Rattle.event_loop.specs.Running.{IsGoing};
ghost use Rattle.hive_model.specs.Fits.{Fits};
ghost use Rattle.hive_model.specs.Valid.{IsValidJob};
ghost use Rattle.hive_model.specs.declared.limits.TheConstants.{MOST_SLOTS};

use crate::bringing::bring;
use crate::ending::end_one;
use crate::performing::run_one;
use crate::turn::Turn;
use crate::waiting::Waiting;
use hive_model::{Entry, EventRecord, Job, Many};
use report_text::Counts;
use scheduler_core::Desk;
use std::alloc::{AllocError, Global};
use std::marker::Model;
use std::sync::Arc;

// As many records as can be counted: counts are numbers of 32 bits.
const MOST_RECORDS: usize = 0xFFFF_FFFF;

/// A scheduler that is run on one thread, with the results that wait for their turn, and the counts of the
/// events that ended (docs/PROCESSING.md, "The loop").
///
/// Contracts see the desk, the number of results that were handed out, and the counts.
#[derive(Drop)]
pub struct EventLoop {
    desk: Desk,
    waiting: Waiting,
    counts: Counts,
    /// how many results were handed out
    handed: u64,
    /// whether it was said that no further event comes
    closed: bool,
}

impl Model for EventLoop {
    ghost use Rattle.event_loop.specs.Loop.{LoopState};
    ghost use Rattle.event_loop.specs.Running.{IsGoing};

    ghost Value = { LoopState };

    ghost view = { λ it. record { desk = it.desk; handed = it.handed; counts = it.counts } };

    ghost invariant = { λ it. IsGoing it.desk it.waiting it.handed it.counts it.closed };
}

impl EventLoop {
    /// A loop for a job with so many slots, from 1 to [`MOST_SLOTS`](hive_model::MOST_SLOTS). Nothing is in
    /// flight yet. The only error is that memory ran out.
    pub fn new(alloc: Global, job: Arc<Job>, slots: u8) -> Result<EventLoop, AllocError>
        requires valid { IsValidJob (arc_value job) }
        requires some { 1 ≤ slots }
        requires few { slots ≤ MOST_SLOTS }
        ensures opening { IfOk result (λ it. it ≡ opening_loop (arc_value job) slots) }
        ensures is_loop { IfOk result IsLoop }
    {
        let desk = Desk::new(alloc, job, slots)?;
        let waiting = Waiting::new(alloc, 2 * usize::from(slots))?;
        Ok(EventLoop {
            desk,
            waiting,
            counts: Counts::new(),
            handed: 0,
            closed: false,
        })
    }

    /// Goes on with a desk in which nothing is outstanding, with the results that wait and the counts of the
    /// events that have ended in it. So many results were handed out, and `closed` tells whether it was said that
    /// no further event comes.
    pub fn resume(
        desk: Desk,
        waiting: Waiting,
        counts: Counts,
        handed: u64,
        closed: bool,
    ) -> EventLoop
        requires { IsGoing desk waiting handed counts closed }
        ensures is { result ≡ record { desk = desk; handed = handed; counts = counts } }
        ensures is_loop { IsLoop result }
    {
        EventLoop {
            desk,
            waiting,
            counts,
            handed,
            closed,
        }
    }

    /// The job.
    pub fn job(&self) -> &Job
        ensures job { result.now ≡ self.now.desk.job }
        ensures is_loop { IsLoop self.now }
    {
        self.desk.job()
    }

    /// Whether an event may be admitted: a slot is empty, events in flight and results that wait are fewer
    /// than two for each slot, and it wasn't said that no further event comes.
    pub fn has_room(&self) -> bool
        ensures room { IsTrue result ↔ HasRoom self.now }
        ensures is_loop { IsLoop self.now }
    {
        let admitted = self.desk.admitted().len() as u64;
        let slots = u64::from(self.desk.slots());
        let busy = admitted - u64::from(self.counts.events);
        let free = busy < slots;
        let few = admitted < self.handed + 2 * slots;
        !self.closed & free & few
    }

    /// Whether the result of the next record waits to be handed out.
    pub fn has_result(&self) -> bool
        ensures ended { NextHasEnded self.now result }
        ensures waits { IsTrue result → self.now.handed < length self.now.desk.admitted }
        ensures is_loop { IsLoop self.now }
    {
        self.waiting.has_first()
    }

    /// Admits an event. The only error is that memory ran out, or that as many events were admitted as can be
    /// counted, 4,294,967,295; nothing has changed then.
    pub fn admit(&mut self, alloc: Global, event: EventRecord) -> Result<(), AllocError>
        requires fits { Fits self.old.desk.job event }
        requires room { HasRoom self.old }
        ensures admitted { OnOk result (Admits self.old event self.new) }
        ensures unchanged { OnErr result (self.new ≡ self.old) }
        ensures is_loop { IsLoop self.new }
    {
        if self.desk.admitted().len() >= MOST_RECORDS {
            return Err(AllocError);
        }
        bring(alloc, &mut self.desk, event)
    }

    /// Does one step (docs/PROCESSING.md, "The loop"): it hands out the result of the next record if its
    /// event has ended; else it ends an event in which nothing can run any more; else it performs one
    /// algorithm and books it.
    pub fn turn(&mut self, alloc: Global) -> Turn
        ensures says { TurnSays self.old result self.new }
        ensures is_loop { IsLoop self.new }
    {
        if let Some(ended) = self.waiting.take_first() {
            self.handed += 1;
            return Turn::Result(ended);
        }
        if end_one(
            &mut self.desk,
            &mut self.waiting,
            &mut self.counts,
            self.handed,
        ) {
            return Turn::Went;
        }
        run_one(alloc, &mut self.desk)
    }

    /// Says that no further event comes. It takes no memory, and changes nothing where it was said before.
    pub fn last(&mut self)
        ensures closes { Closes self.old self.new }
        ensures is_loop { IsLoop self.new }
    {
        let _said = self.desk.last();
        self.closed = true;
    }

    /// How many events have ended, and how many of each status.
    pub fn counts(&self) -> &Counts
        ensures counts { result.now ≡ self.now.counts }
        ensures is_loop { IsLoop self.now }
    {
        &self.counts
    }

    /// The journal of the scheduler, where the loop is no longer needed. It takes no memory.
    pub fn into_journal(self) -> Many<Entry>
        ensures entries { result.items ≡ self.desk.journal }
        ensures is_loop { IsLoop self }
    {
        self.desk.into_journal()
    }
}
