//! One step of the loop, and the report that it gives.
ghost use Rattle.std.specs.Prelude.{◌≡◌, [], ◌∷◌, OnOk, Some, slice_get};
ghost use Rattle.event_laws.specs.Uncut.{HasNoCut};
ghost use Rattle.event_loop.specs.Loop.{IsLoop};
ghost use Rattle.hive_model.specs.EventRecord.{EventRecord as Record};
ghost use Rattle.hive_model.specs.Same.{texts};
ghost use Rattle.hive_model.specs.Valid.{handle_names};
ghost use Rattle.hive_pump.specs.Course.{PutsAs};
ghost use Rattle.hive_pump.specs.Going.{StepSays};
ghost use Rattle.hive_pump.specs.Steps.{report_on};
ghost use Rattle.text_model.specs.Whole.{reports};

use event_loop::{EventLoop, Turn};
use hive_edge::{Sink, send};
use hive_model::{EventResult, Job};
use report_text::push_report;
use std::alloc::{AllocError, Global};

/// What a step came to.
#[derive(Clone, Copy, Debug, PartialEq, Eq)]
pub(crate) enum Step {
    /// An event came nearer to its end, or a report was written.
    Went,
    /// Nothing is in flight, and every report was written.
    Idle,
    /// The same, and no further event comes.
    Over,
    /// The sink failed.
    Broken,
    /// Memory ran out.
    NoMemory,
    /// The loop beside workers has lost track, since others admit or end events, too.
    Lost,
}

/// Makes a step, and writes the report of the result that it hands out, unless the run is brief.
pub(crate) fn make_step<K: Sink>(
    alloc: Global,
    job: &Job,
    names: &[&str],
    brief: bool,
    events: &mut EventLoop,
    text: &mut Vec<u8>,
    sink: &mut K,
) -> Step
    requires uncut { HasNoCut job.now }
    requires of_job { events.old.desk.job ≡ job.now }
    requires named { texts names.now ≡ handle_names job.now }
    requires room { (event : Record) → slice_get events.old.desk.admitted events.old.handed ≡ Some event
        → K.admits sink.old (report_on job.now brief event) }
    ensures says { StepSays K.got K.faults K.admits job.now brief events.old events.new sink.old sink.new result }
    ensures is_loop { IsLoop events.new }
{
    match events.turn(alloc) {
        Turn::Result(result) => put(job, names, brief, &result, text, sink),
        Turn::Went => Step::Went,
        Turn::Idle => Step::Idle,
        Turn::Over => Step::Over,
        Turn::NoMemory => Step::NoMemory,
    }
}

/// Writes the report of an event that ended, as a step.
pub(crate) fn put<K: Sink>(
    job: &Job,
    names: &[&str],
    brief: bool,
    ended: &EventResult,
    text: &mut Vec<u8>,
    sink: &mut K,
) -> Step
    requires named { texts names.now ≡ handle_names job.now }
    requires room { K.admits sink.old (reports job.now brief (ended.now ∷ [])) }
    ensures { PutsAs K.got K.faults K.admits (reports job.now brief (ended.now ∷ [])) sink.old sink.new result }
{
    text.clear();
    if push_ended(job, names, brief, ended, text).is_err() {
        return Step::NoMemory;
    }
    match send(sink, text.as_slice()) {
        Ok(()) => Step::Went,
        Err(_) => Step::Broken,
    }
}

// The report of an event that ended, unless the run is brief.
fn push_ended(
    job: &Job,
    names: &[&str],
    brief: bool,
    ended: &EventResult,
    text: &mut Vec<u8>,
) -> Result<(), AllocError>
    requires empty { text.old.items ≡ [] }
    requires named { texts names.now ≡ handle_names job.now }
    ensures { OnOk result (text.new.items ≡ reports job.now brief (ended.now ∷ [])) }
{
    if brief {
        return Ok(());
    }
    push_report(text, job, names, ended)
}
