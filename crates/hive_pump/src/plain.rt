//! The run on one thread.
ghost use Rattle.std.specs.Prelude.{◌≡◌, ◌≤◌, ℕ, List, IfOk, IsFalse, IsTrue, false};
ghost use Rattle.std.specs.Arc.{arc_value};
ghost use Rattle.event_laws.specs.Uncut.{HasNoCut};
ghost use Rattle.event_loop.specs.Loop.{HasRoom, IsIdleAt, NextHasEnded};
ghost use Rattle.hive_model.specs.Same.{texts};
ghost use Rattle.hive_model.specs.Valid.{IsValidJob, handle_names};
ghost use Rattle.hive_model.specs.declared.limits.TheConstants.{MOST_SLOTS};
ghost use Rattle.hive_pump.specs.Course.{HasStopped};
ghost use Rattle.hive_pump.specs.Going.{IsLoopOf, IsOpening, course_of};
ghost use Rattle.hive_pump.specs.Input.{IsUnread};
ghost use Rattle.hive_pump.specs.Pumped.{IsPumped};
ghost use Rattle.hive_pump.specs.Written.{MayWrite};

use crate::ending::Ending;
use crate::finish::end_run;
use crate::input::{Came, Input};
use crate::plan::Plan;
use crate::pumped::{Pumped, nothing};
use crate::step::{Step, make_step};
use event_loop::EventLoop;
use hive_edge::{Sink, Source};
use hive_model::Job;
use report_text::names_of;
use std::alloc::{AllocError, Global};
use std::sync::Arc;

/// Runs a job on the records of the source, with several events in flight on this thread, and writes the reports to
/// the sink in the order of the records, each as soon as all before it are written, and the last line
/// (docs/FORMATS.md, "Report").
///
/// It reads 65,536 bytes at a time. It admits while a slot is empty and fewer than twice the slots of admitted events
/// have no report yet; only where it can't admit it performs an algorithm. Its memory grows with the input by the
/// journal and the records that were admitted. It flushes nothing.
pub fn pump_plain<S: Source, K: Sink>(
    alloc: Global,
    job: Arc<Job>,
    plan: &Plan,
    source: &mut S,
    sink: &mut K,
) -> Pumped
    requires valid { IsValidJob (arc_value job) }
    requires uncut { HasNoCut (arc_value job) }
    requires some { 1 ≤ plan.now.slots }
    requires few { plan.now.slots ≤ MOST_SLOTS }
    requires room { (text : List ℕ)
        → MayWrite (arc_value job) plan.now.brief (S.rest source.old) text → K.admits sink.old text }
    ensures { IsPumped (arc_value job) plan.now.slots plan.now.brief (S.rest source.old) (S.rest source.new)
        (K.got sink.old) (K.got sink.new) (S.faults source.old) (S.faults source.new)
        (K.faults sink.old) (K.faults sink.new) result.ending result.counts result.journal.items }
{
    let Ok(names) = names_of(alloc, &job) else {
        return nothing(alloc);
    };
    match Run::new(alloc, &job, plan.slots) {
        Ok(run) => run_job(alloc, &job, names.as_slice(), plan.brief, run, source, sink),
        Err(_) => nothing(alloc),
    }
}

// Reads, and finishes.
fn run_job<S: Source, K: Sink>(
    alloc: Global,
    job: &Job,
    names: &[&str],
    brief: bool,
    run: Run,
    source: &mut S,
    sink: &mut K,
) -> Pumped
    requires valid { IsValidJob job.now }
    requires uncut { HasNoCut job.now }
    requires named { texts names.now ≡ handle_names job.now }
    requires unread { IsUnread job.now run.input }
    requires opening { IsOpening job.now run.events.desk.slots run.events }
    requires room { (text : List ℕ) → MayWrite job.now brief (S.rest source.old) text → K.admits sink.old text }
    ensures { IsPumped job.now run.events.desk.slots brief (S.rest source.old) (S.rest source.new)
        (K.got sink.old) (K.got sink.new) (S.faults source.old) (S.faults source.new)
        (K.faults sink.old) (K.faults sink.new) result.ending result.counts result.journal.items }
{
    let mut run = run;
    let ended = read_all(alloc, job, names, brief, &mut run, source, sink);
    let Run {
        input: _,
        events,
        text,
    } = run;
    end_run(alloc, job, names, brief, ended, events, text, sink)
}

// What changes from step to step.
#[derive(Drop)]
struct Run {
    input: Input,
    events: EventLoop,
    // The text that is written next.
    text: Vec<u8>,
}

impl Run {
    fn new(alloc: Global, job: &Arc<Job>, slots: u8) -> Result<Run, AllocError>
        requires valid { IsValidJob (arc_value job.now) }
        requires some { 1 ≤ slots }
        requires few { slots ≤ MOST_SLOTS }
        ensures unread { IfOk result (λ it. IsUnread (arc_value job.now) it.input) }
        ensures opening { IfOk result (λ it. IsOpening (arc_value job.now) slots it.events) }
    {
        let input = Input::new(alloc, job)?;
        let events = EventLoop::new(alloc, Arc::try_clone(job)?, slots)?;
        Ok(Run {
            input,
            events,
            text: Vec::new(alloc),
        })
    }
}

// Reads and admits, and makes steps where nothing can be admitted, until reading stops.
fn read_all<S: Source, K: Sink>(
    alloc: Global,
    job: &Job,
    names: &[&str],
    brief: bool,
    run: &mut Run,
    source: &mut S,
    sink: &mut K,
) -> Ending
    requires valid { IsValidJob job.now }
    requires uncut { HasNoCut job.now }
    requires named { texts names.now ≡ handle_names job.now }
    requires unread { IsUnread job.now run.old.input }
    requires opening { IsOpening job.now run.old.events.desk.slots run.old.events }
    requires room { (text : List ℕ) → MayWrite job.now brief (S.rest source.old) text → K.admits sink.old text }
    ensures stopped { HasStopped S.rest S.faults K.got K.faults K.admits job.now brief source.old source.new
        sink.old sink.new (course_of run.new.events) result }
    ensures is_loop { IsLoopOf job.now run.old.events.desk.slots run.new.events }
{
    'records: loop {
        if can_read(&run.events) {
            match run.input.next(alloc, source) {
                Came::Event(event) => {
                    if run.events.admit(alloc, event).is_err() {
                        return Ending::NoMemory;
                    }
                }
                Came::Piece => {}
                Came::Ended(ended) => return ended,
            }
        } else {
            match make_step(
                alloc,
                job,
                names,
                brief,
                &mut run.events,
                &mut run.text,
                sink,
            ) {
                Step::Went => {}
                Step::Broken => return Ending::Sink,
                Step::NoMemory => return Ending::NoMemory,
                Step::Idle => unreachable!(),
                Step::Over => unreachable!(),
                Step::Lost => unreachable!(),
            }
        }
    }
}

// Whether the next record may be read: no report is due, and its event could be admitted.
fn can_read(events: &EventLoop) -> bool
    ensures due { IsTrue result → NextHasEnded events.now false }
    ensures room { IsTrue result → HasRoom events.now }
    ensures goes_on { IsFalse result → IsIdleAt events.now → ⊥ }
{
    !events.has_result() && events.has_room()
}
