//! The reader of records.
ghost use Rattle.std.specs.Prelude.{◌≡◌, ◌+◌, ◌*◌, ◌≤◌, true, false, List, ℕ, [], ◌++◌, length, drop, Some, None, Ok, IfOk, IfSome, OnOk, OnErr};
ghost use Rattle.std.specs.Arc.{arc_value};
ghost use Rattle.hive_model.specs.EventRecord.{EventRecord};
ghost use Rattle.hive_model.specs.Job.{Job};
ghost use Rattle.text_model.specs.Lines.{lines};
ghost use Rattle.text_model.specs.Records.{most_events};
ghost use Rattle.text_model.specs.declared.bytes.TheConstants.{LINE_FEED};
ghost use Rattle.event_records.specs.Cutting.{HasNo, IsLow};
ghost use Rattle.text_model.specs.declared.record_refusal.RecordCause.TheVariants as cause;
ghost use Rattle.event_records.specs.Kept.{HasAppended, ReachesFrom, Refuses, has_taken};
ghost use Rattle.event_records.specs.Reading.{Answers, Feeds, HasRead, IsAsBefore, Leaves, Stands, StillHasRead, standing_at_rest};
ghost use Rattle.event_records.specs.declared.next.Next.TheVariants as next;

use crate::next::Next;
use crate::reading::{Reached, read_on};
use crate::stop::Stop;
use hive_model::Job;
use std::alloc::{AllocError, Global};
use std::marker::Model;
use std::sync::Arc;
use text_model::{
    MOST_ALGORITHMS_OF_VERSION_1, MOST_EVENTS, MOST_EVENTS_OF_A_LARGE_JOB, Progress, RecordCause,
    RecordRefusal,
};

/// A reader of the records of a job, out of a text that comes in pieces.
///
/// Contracts speak of the text that it was fed and of the records that it has given, by `HasRead`.
#[derive(Drop)]
pub struct Records {
    job: Arc<Job>,
    bytes: Vec<u8>,
    // Where the bytes begin of the lines that weren't taken.
    start: usize,
    // So many bytes from there on hold no line feed.
    searched: usize,
    before: Progress,
    refusal: Option<RecordRefusal>,
    ended: bool,
}

impl Model for Records {
    ghost use Rattle.std.specs.Prelude.{drop, length};
    ghost use Rattle.std.specs.Arc.{arc_value};
    ghost use Rattle.event_records.specs.Kept.{IsKept};
    ghost use Rattle.event_records.specs.Reading.{Reading};

    ghost Value = { Reading };

    ghost view = { λ it. record {
      job = arc_value it.job;
      pending = drop it.start it.bytes.items;
      before = it.before;
      refusal = it.refusal;
      ended = it.ended;
      held = length it.bytes.items;
    } };

    ghost invariant = { λ it. IsKept it.bytes.items it.start it.searched it.before it.refusal };
}

impl Records {
    /// A reader that was fed nothing. The only error is running out of memory.
    pub fn new(alloc: Global, job: Arc<Job>) -> Result<Records, AllocError>
        ensures has_read { IfOk result (λ it. HasRead (arc_value job) [] [] it) }
        ensures open { IfOk result (λ it. it.ended ≡ false) }
    {
        Ok(Records {
            job,
            bytes: Vec::with_capacity(alloc, FIRST_BYTES)?,
            start: 0,
            searched: 0,
            before: Progress {
                lines: 0,
                bytes: 0,
                events: 0,
                header: false,
            },
            refusal: None,
            ended: false,
        })
    }

    /// Takes the next piece of the text, of any length. The only error is running out of memory, and then
    /// nothing of the piece was taken. It holds at most twice the bytes of the lines that weren't taken, and none
    /// after a refusal.
    pub fn feed(&mut self, piece: &[u8]) -> Result<(), AllocError>
        requires { self.old.ended ≡ false }
        ensures ok { OnOk result (Feeds piece.now self.old self.new) }
        ensures err { OnErr result (IsAsBefore self.old self.new) }
        ensures few { OnOk result (self.new.held ≤ 2 * length self.new.pending) }
        ensures open { self.new.ended ≡ false }
    {
        if self.refusal.is_some() {
            return Ok(());
        }
        self.let_go();
        self.append(piece)
    }

    /// The text has ended.
    pub fn end(&mut self)
        ensures has_read { StillHasRead self.old self.new }
        ensures ended { self.new.ended ≡ true }
    {
        self.ended = true;
    }

    /// The next record of the text, or why there is none (docs/FORMATS.md, "Records in pieces").
    ///
    /// `More` comes exactly where the text may go on and no line is left to be taken; `Refused` where a line was
    /// refused, and `Finished` where the text has ended and each line was taken. These answers stay as they are
    /// until more is fed. After `NoMemory` the reader is as before.
    pub fn next(&mut self, alloc: Global) -> Next
        ensures tells { Answers self.old result self.new }
        ensures leaves { Leaves result self.old self.new }
        ensures stands { Stands self.old result self.new }
        ensures ended { self.new.ended ≡ self.old.ended }
    {
        if let Some(refusal) = self.refusal {
            return Next::Refused(refusal);
        }
        let reached = self.read(alloc);
        self.settle(reached)
    }

    // The bytes of the lines that weren't taken.
    fn pending(&self) -> &[u8]
        ensures { result.now ≡ self.now.pending }
    {
        let (_, pending) = self.bytes.as_slice().split_at(self.start);
        pending
    }

    // Lets go of the bytes of the lines that were taken, once they are half of what is kept: so each byte is
    // moved at most once for one that goes.
    fn let_go(&mut self)
        ensures before { IsAsBefore self.old self.new }
        ensures few { self.new.held ≤ 2 * length self.new.pending }
    {
        let kept = self.bytes.len() - self.start;
        if kept <= self.start {
            self.bytes.copy_within(self.start.., 0);
            self.bytes.truncate(kept);
            self.start = 0;
        }
    }

    fn append(&mut self, piece: &[u8]) -> Result<(), AllocError>
        requires { self.old.refusal ≡ None }
        ensures ok { OnOk result (HasAppended piece.now self.old self.new) }
        ensures err { OnErr result (self.new ≡ self.old) }
    {
        self.bytes.extend_from_slice(piece)
    }

    fn read(&self, alloc: Global) -> Reached
        ensures reaches { ReachesFrom self.now result.found result.before result.taken }
        ensures within { result.taken ≤ length self.now.pending }
        ensures no_feed { result.found ≡ Ok None → HasNo LINE_FEED (drop result.taken self.now.pending) }
        ensures low { IsLow result.before }
        ensures rests { lines self.now.ended self.now.pending ≡ []
            → (result.found ≡ Ok None) × (result.taken ≡ 0) × (result.before ≡ self.now.before) }
    {
        let job = &*self.job;
        read_on(
            alloc,
            job.raws(),
            most_of(job),
            self.ended,
            self.before,
            self.searched,
            self.pending(),
        )
    }

    // Takes the lines that were read.
    fn settle(&mut self, reached: Reached) -> Next
        requires unrefused { self.old.refusal ≡ None }
        requires reaches { ReachesFrom self.old reached.found reached.before reached.taken }
        requires within { reached.taken ≤ length self.old.pending }
        requires no_feed { reached.found ≡ Ok None → HasNo LINE_FEED (drop reached.taken self.old.pending) }
        requires low { IsLow reached.before }
        ensures tells { Answers self.old result self.new }
        ensures leaves { Leaves result self.old self.new }
        ensures stands { reached.found ≡ Ok None → reached.taken ≡ 0
            → reached.before ≡ self.old.before
            → IfSome (standing_at_rest self.old.ended self.old.before.header [])
            (λ answer. (result ≡ answer) × (self.new ≡ self.old)) }
        ensures ended { self.new.ended ≡ self.old.ended }
    {
        let Reached {
            found,
            taken,
            before,
        } = reached;
        match found {
            Ok(Some(record)) => {
                self.take(taken, before);
                Next::Event(record)
            }
            Ok(None) => {
                self.take(taken, before);
                self.rest()
            }
            Err(Stop::Refused(cause)) => {
                self.take(taken, before);
                self.refuse(cause)
            }
            Err(Stop::NoMemory) => Next::NoMemory,
        }
    }

    fn take(&mut self, taken: usize, before: Progress)
        requires within { taken ≤ length self.old.pending }
        requires low { IsLow before }
        ensures { self.new ≡ has_taken taken before self.old }
    {
        self.start += taken;
        self.searched = 0;
        self.before = before;
    }

    // The answer where no line is left.
    fn rest(&mut self) -> Next
        requires { HasNo LINE_FEED self.old.pending }
        ensures more { self.old.ended ≡ false → (result ≡ next.More) × (self.new ≡ self.old) }
        ensures finished { self.old.ended ≡ true → self.old.before.header ≡ true
            → (result ≡ next.Finished) × (self.new ≡ self.old) }
        ensures refused { self.old.ended ≡ true → self.old.before.header ≡ false
            → Refuses cause.Header self.old result self.new }
    {
        self.searched = self.bytes.len() - self.start;
        if !self.ended {
            Next::More
        } else if self.before.header {
            Next::Finished
        } else {
            self.refuse(RecordCause::Header)
        }
    }

    fn refuse(&mut self, cause: RecordCause) -> Next
        ensures { Refuses cause self.old result self.new }
    {
        let refusal = RecordRefusal {
            line: self.before.lines + 1,
            cause,
        };
        self.bytes.clear();
        self.start = 0;
        self.searched = 0;
        self.refusal = Some(refusal);
        Next::Refused(refusal)
    }
}

// The room that a reader begins with: a page of memory.
const FIRST_BYTES: usize = 4_096;

fn most_of(job: &Job) -> u32
    ensures { result ≡ most_events job.now }
{
    if job.algorithms().len() > MOST_ALGORITHMS_OF_VERSION_1 {
        MOST_EVENTS_OF_A_LARGE_JOB
    } else {
        MOST_EVENTS
    }
}
