//! A run is brought to its end.
ghost use Rattle.std.specs.Prelude.{◌≡◌, true};
ghost use Rattle.event_laws.specs.Uncut.{HasNoCut};
ghost use Rattle.event_loop.specs.Loop.{IsLoop};
ghost use Rattle.hive_model.specs.Same.{texts};
ghost use Rattle.hive_model.specs.Valid.{handle_names};
ghost use Rattle.hive_pump.specs.Course.{reports_left};
ghost use Rattle.hive_pump.specs.Going.{DrainSays, FinishSays, IsTold, RunsOut, course_of, rest_of};
ghost use Rattle.hive_pump.specs.Steps.{HasLine};
ghost use Rattle.scheduler_core.specs.Says.{is_closed};

use crate::ending::Ending;
use crate::pumped::Pumped;
use crate::run::put_last;
use crate::step::{Step, make_step};
use event_loop::{EventLoop, Turn};
use hive_edge::Sink;
use hive_model::Job;
use std::alloc::Global;

/// Finishes what was admitted, after reading has stopped so, and tells what the run came to.
pub(crate) fn end_run<K: Sink>(
    alloc: Global,
    job: &Job,
    names: &[&str],
    brief: bool,
    ended: Ending,
    events: EventLoop,
    text: Vec<u8>,
    sink: &mut K,
) -> Pumped
    requires uncut { HasNoCut job.now }
    requires of_job { events.desk.job ≡ job.now }
    requires sound { IsLoop events }
    requires named { texts names.now ≡ handle_names job.now }
    requires room { HasLine ended → K.admits sink.old (rest_of job.now brief ended (course_of events)) }
    ensures { IsTold K.got K.faults K.admits job.now brief ended events sink.old sink.new result.ending
        result.counts result.journal.items }
{
    let (mut events, mut text) = (events, text);
    let ending = finish(
        alloc,
        job,
        names,
        brief,
        ended,
        &mut events,
        &mut text,
        sink,
    );
    let counts = *events.counts();
    Pumped {
        ending,
        counts,
        journal: events.into_journal(),
    }
}

// Finishes what was admitted, after reading has stopped so, writes the reports that are still to come, and the last
// line. After a failure of the sink it finishes without writing.
fn finish<K: Sink>(
    alloc: Global,
    job: &Job,
    names: &[&str],
    brief: bool,
    ended: Ending,
    events: &mut EventLoop,
    text: &mut Vec<u8>,
    sink: &mut K,
) -> Ending
    requires uncut { HasNoCut job.now }
    requires of_job { events.old.desk.job ≡ job.now }
    requires sound { IsLoop events.old }
    requires named { texts names.now ≡ handle_names job.now }
    requires room { HasLine ended → K.admits sink.old (rest_of job.now brief ended (course_of events.old)) }
    ensures says { FinishSays K.got K.faults K.admits job.now brief ended
        events.old events.new sink.old sink.new result }
    ensures is_loop { IsLoop events.new }
{
    match ended {
        Ending::All => write_out(alloc, job, names, brief, Ending::All, events, text, sink),
        Ending::Refused(refusal) => {
            write_out(
                alloc,
                job,
                names,
                brief,
                Ending::Refused(refusal),
                events,
                text,
                sink,
            )
        }
        Ending::Source => write_out(alloc, job, names, brief, Ending::Source, events, text, sink),
        Ending::Sink => run_out(alloc, events),
        Ending::NoMemory => Ending::NoMemory,
    }
}

// Finishes what was admitted, with its reports and the last line.
fn write_out<K: Sink>(
    alloc: Global,
    job: &Job,
    names: &[&str],
    brief: bool,
    ended: Ending,
    events: &mut EventLoop,
    text: &mut Vec<u8>,
    sink: &mut K,
) -> Ending
    requires uncut { HasNoCut job.now }
    requires of_job { events.old.desk.job ≡ job.now }
    requires sound { IsLoop events.old }
    requires named { texts names.now ≡ handle_names job.now }
    requires ends { HasLine ended }
    requires room { K.admits sink.old (rest_of job.now brief ended (course_of events.old)) }
    ensures says { FinishSays K.got K.faults K.admits job.now brief ended
        events.old events.new sink.old sink.new result }
    ensures is_loop { IsLoop events.new }
{
    events.last();
    match drain(alloc, job, names, brief, events, text, sink) {
        Step::Over => put_last(ended, events.counts(), text, sink),
        Step::Broken => run_out(alloc, events),
        Step::NoMemory => Ending::NoMemory,
        Step::Went => unreachable!(),
        Step::Idle => unreachable!(),
        Step::Lost => unreachable!(),
    }
}

// Runs the loop until every event has ended, and writes each report.
fn drain<K: Sink>(
    alloc: Global,
    job: &Job,
    names: &[&str],
    brief: bool,
    events: &mut EventLoop,
    text: &mut Vec<u8>,
    sink: &mut K,
) -> Step
    requires uncut { HasNoCut job.now }
    requires of_job { events.old.desk.job ≡ job.now }
    requires sound { IsLoop events.old }
    requires closed { is_closed events.old.desk ≡ true }
    requires named { texts names.now ≡ handle_names job.now }
    requires room { K.admits sink.old (reports_left job.now brief (course_of events.old)) }
    ensures says { DrainSays K.got K.faults K.admits job.now brief events.old events.new sink.old sink.new result }
    ensures is_loop { IsLoop events.new }
{
    'events: loop {
        match make_step(alloc, job, names, brief, events, text, sink) {
            Step::Went => {}
            Step::Idle => return Step::Idle,
            Step::Over => return Step::Over,
            Step::Broken => return Step::Broken,
            Step::NoMemory => return Step::NoMemory,
            Step::Lost => return Step::Lost,
        }
    }
}

// Finishes what was admitted and writes nothing, after the sink has failed.
fn run_out(alloc: Global, events: &mut EventLoop) -> Ending
    requires { IsLoop events.old }
    ensures says { RunsOut events.old events.new result }
    ensures is_loop { IsLoop events.new }
{
    events.last();
    'events: loop {
        match events.turn(alloc) {
            Turn::Result(_) => {}
            Turn::Went => {}
            Turn::Idle => unreachable!(),
            Turn::Over => return Ending::Sink,
            Turn::NoMemory => return Ending::NoMemory,
        }
    }
}
