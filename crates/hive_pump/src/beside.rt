//! The run with workers.
ghost use Rattle.std.specs.Prelude.{◌≡◌, ◌≤◌, ◌↔◌, ℕ, All, List, IfOk, IsTrue, Some, false, length, slice_get, true};
ghost use Rattle.std.specs.Arc.{arc_value};
ghost use Rattle.std.specs.Thread.{IsSync};
ghost use Rattle.event_laws.specs.Uncut.{HasNoCut};
ghost use Rattle.hall_loop.specs.Beside.{HasRoomBeside, IsBeside, has_waiting};
ghost use Rattle.hall_loop.specs.Opened.{AreNewWorkers, IsNewWorker};
ghost use Rattle.hall_loop.specs.Others.{HasOnlyWorked};
ghost use Rattle.hall_loop.specs.declared.limits.TheConstants.{MOST_WORKERS};
ghost use Rattle.hive_hall.specs.Pass.{job_of, seen, slots_of};
ghost use Rattle.hive_model.specs.EventRecord.{EventRecord as Record};
ghost use Rattle.hive_model.specs.History.{is_stopped};
ghost use Rattle.hive_model.specs.Same.{texts};
ghost use Rattle.hive_model.specs.Valid.{IsValidJob, handle_names};
ghost use Rattle.hive_model.specs.declared.limits.TheConstants.{MOST_SLOTS};
ghost use Rattle.hive_pump.specs.Beside.{
  DrainBesideSays,
  HasCauseBeside,
  HasDoneBeside,
  HasRunOut,
  IsOpeningBeside,
  Parts,
  PartsFrom,
  RunsOutBeside,
  StepBesideSays,
  course_beside,
};
ghost use Rattle.hive_pump.specs.Course.{reports_left};
ghost use Rattle.hive_pump.specs.Pumped.{IsPumped};
ghost use Rattle.hive_pump.specs.Steps.{HasLine, report_on};
ghost use Rattle.hive_pump.specs.Written.{MayWrite};

use crate::ending::Ending;
use crate::finish::end_run;
use crate::input::{Came, Input};
use crate::plain::pump_plain;
use crate::plan::Plan;
use crate::pumped::{Pumped, nothing};
use crate::step::{Step, put};
use hall_loop::{Fault, HallLoop, Opened, Unsettled, open, settle, work_all};
use hive_edge::{Sink, Source};
use hive_hall::{Hall, Pass};
use hive_model::{Job, Many};
use hive_workers::Gate;
use report_text::names_of;
use std::alloc::{AllocError, Global};
use std::sync::{Arc, Wait};
use std::thread::{Threads, join_mut};

/// How reading and writing beside workers stopped.
#[derive(Clone, Copy, Debug, PartialEq, Eq)]
pub(crate) enum Parted {
    /// The run ends so, or is still to be finished after such an end of reading.
    By(Ending),
    /// The loop has lost track, since others admit or end events, too.
    Lost,
}

/// Runs a job as [`pump_plain`] does, with as many workers beside this thread as the plan has, from 0 to
/// [`MOST_WORKERS`](hall_loop::MOST_WORKERS). What is written is the same, whichever thread is quicker.
///
/// This thread reads, admits and writes each report as soon as all before it are written, while the workers perform;
/// it performs an algorithm itself only where it can't admit, and calls the gate as a worker does. When the workers have
/// returned it finishes on its own what is left. It waits for the scheduler's lock and for its workers, so that it ends
/// isn't promised. Its memory is that of [`pump_plain`], and that of the workers' threads.
pub fn pump<R: Threads + Wait + Sync, S: Source, K: Sink, G: Gate>(
    rt: &R,
    alloc: Global,
    job: Arc<Job>,
    plan: &Plan,
    source: &mut S,
    sink: &mut K,
    gate: &G,
) -> Pumped
    requires valid { IsValidJob (arc_value job) }
    requires uncut { HasNoCut (arc_value job) }
    requires some { 1 ≤ plan.now.slots }
    requires few { plan.now.slots ≤ MOST_SLOTS }
    requires workers { plan.now.workers ≤ MOST_WORKERS }
    requires room { (text : List ℕ)
        → MayWrite (arc_value job) plan.now.brief (S.rest source.old) text → K.admits sink.old text }
    ensures { IsPumped (arc_value job) plan.now.slots plan.now.brief (S.rest source.old) (S.rest source.new)
        (K.got sink.old) (K.got sink.new) (S.faults source.old) (S.faults source.new)
        (K.faults sink.old) (K.faults sink.new) result.ending result.counts result.journal.items }
{
    if plan.workers == 0 {
        return pump_plain(alloc, job, plan, source, sink);
    }
    let Ok(names) = names_of(alloc, &job) else {
        return nothing(alloc);
    };
    match prepare(alloc, &job, plan) {
        Ok((input, opened)) => {
            let names = names.as_slice();
            run_all(
                rt, alloc, &job, names, plan.brief, input, opened, source, sink, gate,
            )
        }
        Err(_) => nothing(alloc),
    }
}

// A hall can't be dropped, so it is made last.
fn prepare(alloc: Global, job: &Arc<Job>, plan: &Plan) -> Result<(Input, Opened), AllocError>
    requires valid { IsValidJob (arc_value job.now) }
    requires some { 1 ≤ plan.now.slots }
    requires few { plan.now.slots ≤ MOST_SLOTS }
    requires workers { plan.now.workers ≤ MOST_WORKERS }
    ensures opening { IfOk result (λ it. IsOpeningBeside (arc_value job.now) it.1.hall it.0 it.1.events) }
    ensures slots { IfOk result (λ it. slots_of it.1.hall ≡ plan.now.slots) }
    ensures new { IfOk result (λ it. AreNewWorkers it.1.hall it.1.workers) }
{
    let input = Input::new(alloc, job)?;
    let opened = open(alloc, Arc::try_clone(job)?, plan.slots, plan.workers)?;
    Ok((input, opened))
}

// Runs the workers and reads, admits and writes beside them, and finishes when they have returned.
fn run_all<R: Threads + Wait + Sync, S: Source, K: Sink, G: Gate>(
    rt: &R,
    alloc: Global,
    job: &Job,
    names: &[&str],
    brief: bool,
    input: Input,
    opened: Opened,
    source: &mut S,
    sink: &mut K,
    gate: &G,
) -> Pumped
    requires valid { IsValidJob job.now }
    requires uncut { HasNoCut job.now }
    requires named { texts names.now ≡ handle_names job.now }
    requires opening { IsOpeningBeside job.now opened.hall input opened.events }
    requires new { AreNewWorkers opened.hall opened.workers }
    requires room { (text : List ℕ) → MayWrite job.now brief (S.rest source.old) text → K.admits sink.old text }
    ensures { IsPumped job.now (slots_of opened.hall) brief (S.rest source.old) (S.rest source.new)
        (K.got sink.old) (K.got sink.new) (S.faults source.old) (S.faults source.new)
        (K.faults sink.old) (K.faults sink.new) result.ending result.counts result.journal.items }
{
    let Opened {
        hall,
        workers,
        events,
    } = opened;
    let mut workers = workers;
    let mut run = RunBeside {
        input,
        events,
        text: Vec::new(alloc),
    };
    let passes = workers.as_mut_slice();
    let parted = run_beside(
        rt, alloc, &hall, gate, job, names, brief, &mut run, source, sink, passes,
    );
    let RunBeside {
        input: _,
        events,
        text,
    } = run;
    let settled = settle(rt, alloc, hall, workers, events);
    // the others have only worked, so the loop has kept track
    let Parted::By(ended) = parted else {
        unreachable!()
    };
    match settled {
        Ok(events) => end_run(alloc, job, names, brief, ended, events, text, sink),
        Err(Unsettled { counts, journal }) => Pumped {
            ending: Ending::NoMemory,
            counts,
            journal,
        },
    }
}

// Runs the workers, and reads, admits and writes beside them, until all have returned.
fn run_beside<R: Threads + Wait + Sync, S: Source, K: Sink, G: Gate>(
    rt: &R,
    alloc: Global,
    hall: &Hall,
    gate: &G,
    job: &Job,
    names: &[&str],
    brief: bool,
    run: &mut RunBeside,
    source: &mut S,
    sink: &mut K,
    passes: &mut [Pass],
) -> Parted
    requires valid { IsValidJob job.now }
    requires uncut { HasNoCut job.now }
    requires named { texts names.now ≡ handle_names job.now }
    requires opening { IsOpeningBeside job.now hall.now run.old.input run.old.events }
    requires new { All (IsNewWorker hall.now) passes.old }
    requires room { (text : List ℕ) → MayWrite job.now brief (S.rest source.old) text → K.admits sink.old text }
    ensures parts { Parts S.rest S.faults K.got K.faults K.admits hall.now job.now brief source.old source.new
        sink.old sink.new run.new.events result }
    ensures beside { IsBeside hall.now run.new.events }
    ensures told { is_stopped (seen run.new.events.pass) ≡ true }
    ensures count { length passes.new ≡ length passes.old }
    ensures worked { All (HasOnlyWorked hall.now) passes.new }
{
    let ((), parted) = join_mut(
        rt,
        &mut ||
            requires { IsSync R.row × All (IsNewWorker hall.now) passes.now }
            ensures { (length passes.exit.now ≡ length passes.entry.now) × All (HasOnlyWorked hall.entry.now) passes.exit.now }
        { work_all(rt, alloc, hall, gate, passes) },
        &mut || -> Parted
            requires { IsValidJob job.now × HasNoCut job.now × (texts names.now ≡ handle_names job.now)
                × IsOpeningBeside job.now hall.now run.now.input run.now.events
                × ((text : List ℕ) → MayWrite job.now brief (S.rest source.now) text → K.admits sink.now text) }
            ensures { Parts S.rest S.faults K.got K.faults K.admits hall.entry.now job.entry.now brief source.entry.now
                source.exit.now sink.entry.now sink.exit.now run.exit.now.events result
                × IsBeside hall.entry.now run.exit.now.events
                × (is_stopped (seen run.exit.now.events.pass) ≡ true) }
        { go_on(rt, alloc, hall, gate, job, names, brief, run, source, sink) },
    );
    parted
}

// What changes from step to step.
#[derive(Drop)]
pub(crate) struct RunBeside {
    input: Input,
    events: HallLoop,
    // The text that is written next.
    text: Vec<u8>,
}

// Reads, admits and writes, and then lets the workers return.
fn go_on<R: Wait, S: Source, K: Sink, G: Gate>(
    rt: &R,
    alloc: Global,
    hall: &Hall,
    gate: &G,
    job: &Job,
    names: &[&str],
    brief: bool,
    run: &mut RunBeside,
    source: &mut S,
    sink: &mut K,
) -> Parted
    requires valid { IsValidJob job.now }
    requires uncut { HasNoCut job.now }
    requires named { texts names.now ≡ handle_names job.now }
    requires opening { IsOpeningBeside job.now hall.now run.old.input run.old.events }
    requires room { (text : List ℕ) → MayWrite job.now brief (S.rest source.old) text → K.admits sink.old text }
    ensures parts { Parts S.rest S.faults K.got K.faults K.admits hall.now job.now brief source.old source.new
        sink.old sink.new run.new.events result }
    ensures beside { IsBeside hall.now run.new.events }
    ensures told { is_stopped (seen run.new.events.pass) ≡ true }
{
    let parted = read_and_write(rt, alloc, hall, gate, job, names, brief, run, source, sink);
    run.events.stop(rt, hall);
    parted
}

// Reads, admits and writes, and when reading has stopped finishes what was admitted.
fn read_and_write<R: Wait, S: Source, K: Sink, G: Gate>(
    rt: &R,
    alloc: Global,
    hall: &Hall,
    gate: &G,
    job: &Job,
    names: &[&str],
    brief: bool,
    run: &mut RunBeside,
    source: &mut S,
    sink: &mut K,
) -> Parted
    requires valid { IsValidJob job.now }
    requires uncut { HasNoCut job.now }
    requires named { texts names.now ≡ handle_names job.now }
    requires opening { IsOpeningBeside job.now hall.now run.old.input run.old.events }
    requires room { (text : List ℕ) → MayWrite job.now brief (S.rest source.old) text → K.admits sink.old text }
    ensures parts { Parts S.rest S.faults K.got K.faults K.admits hall.now job.now brief source.old source.new
        sink.old sink.new run.new.events result }
    ensures beside { IsBeside hall.now run.new.events }
{
    match read_beside(rt, alloc, hall, gate, job, names, brief, run, source, sink) {
        Parted::By(ended) => finish_beside(
            rt, alloc, hall, gate, job, names, brief, ended, run, sink,
        ),
        Parted::Lost => Parted::Lost,
    }
}

// Reads and admits, and makes steps where nothing can be admitted, until reading stops.
fn read_beside<R: Wait, S: Source, K: Sink, G: Gate>(
    rt: &R,
    alloc: Global,
    hall: &Hall,
    gate: &G,
    job: &Job,
    names: &[&str],
    brief: bool,
    run: &mut RunBeside,
    source: &mut S,
    sink: &mut K,
) -> Parted
    requires valid { IsValidJob job.now }
    requires uncut { HasNoCut job.now }
    requires named { texts names.now ≡ handle_names job.now }
    requires opening { IsOpeningBeside job.now hall.now run.old.input run.old.events }
    requires room { (text : List ℕ) → MayWrite job.now brief (S.rest source.old) text → K.admits sink.old text }
    ensures parts { Parts S.rest S.faults K.got K.faults K.admits hall.now job.now brief source.old source.new
        sink.old sink.new run.new.events result }
    ensures beside { IsBeside hall.now run.new.events }
{
    for _ in rt.forever() {
        if can_read(&run.events) {
            match run.input.next(alloc, source) {
                Came::Event(event) => match run.events.admit(rt, alloc, hall, event) {
                    Ok(()) => {}
                    Err(Fault::NoMemory) => return Parted::By(Ending::NoMemory),
                    Err(Fault::Lost) => return Parted::Lost,
                },
                Came::Piece => {}
                Came::Ended(ended) => return Parted::By(ended),
            }
        } else {
            match step_beside(rt, alloc, hall, gate, job, names, brief, run, sink) {
                Step::Went => {}
                Step::Idle => {}
                Step::Over => {}
                Step::Broken => return Parted::By(Ending::Sink),
                Step::NoMemory => return Parted::By(Ending::NoMemory),
                Step::Lost => return Parted::Lost,
            }
        }
    }
    unreachable!()
}

// Whether the next record may be read: no report is due, and its event could be admitted.
fn can_read(events: &HallLoop) -> bool
    ensures { IsTrue result ↔ (has_waiting events.now ≡ false) × HasRoomBeside events.now }
{
    !events.has_result() && events.has_room()
}

// Makes a step, and writes the report of the result that it hands out, unless the run is brief.
fn step_beside<R: Wait, K: Sink, G: Gate>(
    rt: &R,
    alloc: Global,
    hall: &Hall,
    gate: &G,
    job: &Job,
    names: &[&str],
    brief: bool,
    run: &mut RunBeside,
    sink: &mut K,
) -> Step
    requires uncut { HasNoCut job.now }
    requires of_job { job_of hall.now ≡ job.now }
    requires named { texts names.now ≡ handle_names job.now }
    requires beside { IsBeside hall.now run.old.events }
    requires room { (event : Record)
        → slice_get (course_beside run.old.events).given (course_beside run.old.events).handed ≡ Some event
        → K.admits sink.old (report_on job.now brief event) }
    ensures says { StepBesideSays K.got K.faults K.admits hall.now job.now brief run.old.events run.new.events
        sink.old sink.new result }
    ensures beside { IsBeside hall.now run.new.events }
    ensures cause { HasCauseBeside hall.now run.new.events result }
    ensures done { HasDoneBeside result run.old.events run.new.events }
    ensures input { run.new.input ≡ run.old.input }
{
    match run.events.turn(rt, alloc, hall, gate) {
        hall_loop::Step::Result(result) => put(job, names, brief, &result, &mut run.text, sink),
        hall_loop::Step::Went => Step::Went,
        hall_loop::Step::Idle => Step::Idle,
        hall_loop::Step::Over => Step::Over,
        hall_loop::Step::NoMemory => Step::NoMemory,
        hall_loop::Step::Lost => Step::Lost,
    }
}

// Finishes beside the workers, after reading has stopped so.
fn finish_beside<R: Wait, K: Sink, G: Gate>(
    rt: &R,
    alloc: Global,
    hall: &Hall,
    gate: &G,
    job: &Job,
    names: &[&str],
    brief: bool,
    ended: Ending,
    run: &mut RunBeside,
    sink: &mut K,
) -> Parted
    requires uncut { HasNoCut job.now }
    requires of_job { job_of hall.now ≡ job.now }
    requires named { texts names.now ≡ handle_names job.now }
    requires beside { IsBeside hall.now run.old.events }
    requires room { HasLine ended → K.admits sink.old (reports_left job.now brief (course_beside run.old.events)) }
    ensures parts { PartsFrom K.got K.faults K.admits hall.now job.now brief ended run.old.events run.new.events
        sink.old sink.new result }
    ensures beside { IsBeside hall.now run.new.events }
    ensures ran_out { HasRunOut hall.now run.new.events result }
{
    match ended {
        Ending::All => write_beside(
            rt,
            alloc,
            hall,
            gate,
            job,
            names,
            brief,
            Ending::All,
            run,
            sink,
        ),
        Ending::Refused(refusal) => write_beside(
            rt,
            alloc,
            hall,
            gate,
            job,
            names,
            brief,
            Ending::Refused(refusal),
            run,
            sink,
        ),
        Ending::Source => write_beside(
            rt,
            alloc,
            hall,
            gate,
            job,
            names,
            brief,
            Ending::Source,
            run,
            sink,
        ),
        Ending::Sink => run_out_beside(rt, alloc, hall, gate, &mut run.events),
        Ending::NoMemory => Parted::By(Ending::NoMemory),
    }
}

// Says that no further event comes, and writes what is still to come but for the last line.
fn write_beside<R: Wait, K: Sink, G: Gate>(
    rt: &R,
    alloc: Global,
    hall: &Hall,
    gate: &G,
    job: &Job,
    names: &[&str],
    brief: bool,
    ended: Ending,
    run: &mut RunBeside,
    sink: &mut K,
) -> Parted
    requires uncut { HasNoCut job.now }
    requires of_job { job_of hall.now ≡ job.now }
    requires named { texts names.now ≡ handle_names job.now }
    requires beside { IsBeside hall.now run.old.events }
    requires ends { HasLine ended }
    requires room { K.admits sink.old (reports_left job.now brief (course_beside run.old.events)) }
    ensures parts { PartsFrom K.got K.faults K.admits hall.now job.now brief ended run.old.events run.new.events
        sink.old sink.new result }
    ensures beside { IsBeside hall.now run.new.events }
    ensures ran_out { HasRunOut hall.now run.new.events result }
{
    run.events.last(rt, hall);
    match drain_beside(rt, alloc, hall, gate, job, names, brief, ended, run, sink) {
        Step::Over => Parted::By(ended),
        Step::Broken => run_out_beside(rt, alloc, hall, gate, &mut run.events),
        Step::NoMemory => Parted::By(Ending::NoMemory),
        Step::Lost => Parted::Lost,
        Step::Went => unreachable!(),
        Step::Idle => unreachable!(),
    }
}

// Makes steps until every event has ended, and writes each report.
fn drain_beside<R: Wait, K: Sink, G: Gate>(
    rt: &R,
    alloc: Global,
    hall: &Hall,
    gate: &G,
    job: &Job,
    names: &[&str],
    brief: bool,
    ended: Ending,
    run: &mut RunBeside,
    sink: &mut K,
) -> Step
    requires uncut { HasNoCut job.now }
    requires of_job { job_of hall.now ≡ job.now }
    requires named { texts names.now ≡ handle_names job.now }
    requires beside { IsBeside hall.now run.old.events }
    requires closed { run.old.events.closed ≡ true }
    requires ends { HasLine ended }
    requires room { K.admits sink.old (reports_left job.now brief (course_beside run.old.events)) }
    ensures says { DrainBesideSays K.got K.faults K.admits hall.now job.now brief ended run.old.events run.new.events
        sink.old sink.new result }
    ensures beside { IsBeside hall.now run.new.events }
    ensures cause { HasCauseBeside hall.now run.new.events result }
{
    for _ in rt.forever() {
        match step_beside(rt, alloc, hall, gate, job, names, brief, run, sink) {
            Step::Went => {}
            Step::Idle => {}
            Step::Over => return Step::Over,
            Step::Broken => return Step::Broken,
            Step::NoMemory => return Step::NoMemory,
            Step::Lost => return Step::Lost,
        }
    }
    unreachable!()
}

// Says that no further event comes, finishes what was admitted and writes nothing, after the sink has failed.
fn run_out_beside<R: Wait, G: Gate>(
    rt: &R,
    alloc: Global,
    hall: &Hall,
    gate: &G,
    events: &mut HallLoop,
) -> Parted
    requires { IsBeside hall.now events.old }
    ensures says { RunsOutBeside hall.now events.old events.new result }
    ensures beside { IsBeside hall.now events.new }
    ensures ran_out { HasRunOut hall.now events.new result }
{
    events.last(rt, hall);
    end_beside(rt, alloc, hall, gate, events)
}

// Makes steps until every event has ended.
fn end_beside<R: Wait, G: Gate>(
    rt: &R,
    alloc: Global,
    hall: &Hall,
    gate: &G,
    events: &mut HallLoop,
) -> Parted
    requires beside { IsBeside hall.now events.old }
    requires closed { events.old.closed ≡ true }
    ensures says { RunsOutBeside hall.now events.old events.new result }
    ensures beside { IsBeside hall.now events.new }
    ensures ran_out { HasRunOut hall.now events.new result }
{
    for _ in rt.forever() {
        match events.turn(rt, alloc, hall, gate) {
            hall_loop::Step::Result(_) => {}
            hall_loop::Step::Went => {}
            hall_loop::Step::Idle => {}
            hall_loop::Step::Over => return Parted::By(Ending::Sink),
            hall_loop::Step::NoMemory => return Parted::By(Ending::NoMemory),
            hall_loop::Step::Lost => return Parted::Lost,
        }
    }
    unreachable!()
}
