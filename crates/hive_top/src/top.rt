//! The top calls.
ghost use Rattle.std.specs.Prelude.{◌≡◌, IfSome};
ghost use Rattle.hive_model.specs.Same.{texts};
ghost use Rattle.hive_top.specs.Ran.{HasRoom, HasTraceRoom, IsCalled, IsRan};
ghost use Rattle.hive_top.specs.Tasks.{HasFile};
ghost use Rattle.hive_top.specs.Words.{IsWithin, command_of};

use crate::commands::Command;
use crate::lines::tell;
use crate::ran::{Ran, without_run};
use crate::run::{end_generated, end_run};
use crate::task::{GeneratedRun, Task, task_of};
use crate::trace::trace_run;
use crate::words::command;
use hive_edge::{Shelf, Sink, Source};
use hive_pump::{pump, pump_plain};
use hive_workers::Gate;
use std::alloc::Global;
use std::sync::Wait;
use std::thread::Threads;

/// Runs the words of a command line over the files, the source, the sink and the trace.
///
/// The written forms are those of docs/FORMATS.md, "Words". `run` and `check` read the options in FILE from `shelf`.
/// `check` then writes how many algorithms, sequences and handles the job has. `run` reads record after record from
/// `source`, with several events in flight, and writes the reports to `sink` in the order of the records, each event's as
/// if it had been evaluated by itself; where the words ask for it, it then writes the journal to `trace`. `gen` writes a
/// generated text, and `bulk` runs generated records. The causes of a status stand in the order words, shelf, options,
/// and then the input; a failure of the sink or of the trace counts before all of them.
///
/// As many workers as the words say perform algorithms, each on a thread of its own, and so does this thread where it can't
/// admit a record; with none it performs all. `gate` is told of each execution by the thread that performs it.
///
/// The text that is due is told by `IsDue`, of the words and of what the files and the source tell, where a count of
/// failures that rose counts before that: where memory sufficed and no count stands at its last value, the sink got
/// exactly this text, and the status is the one that goes with it, for every number of workers, whichever of them was
/// quicker. This is said of a call that returns: with workers it may wait, and that it returns isn't said.
pub fn hive<R: Threads + Wait + Sync, F: Shelf, S: Source, K: Sink, T: Sink, G: Gate>(
    rt: &R,
    alloc: Global,
    words: &[&str],
    shelf: &mut F,
    source: &mut S,
    sink: &mut K,
    trace: &mut T,
    gate: &G,
) -> Ran
    requires files { HasFile (texts words.now) (F.has shelf.old) }
    requires room { HasRoom (texts words.now) (F.files shelf.old) (S.rest source.old) (K.admits sink.old) }
    requires trace_room { HasTraceRoom (texts words.now) (F.files shelf.old) (S.rest source.old) (T.admits trace.old) }
    ensures { IsRan F.files F.faults S.rest S.faults K.got K.faults T.got T.faults (texts words.now) shelf.old shelf.new
        source.old source.new sink.old sink.new trace.old trace.new result.status result.journal.items }
{
    let asked = command(words);
    let ran = call(rt, alloc, asked, words, shelf, source, sink, gate);
    trace_run(alloc, asked, ran, trace)
}

/// Does what [`hive`] does, on this thread alone: it reads the number of workers and starts none. It waits for nobody
/// and always returns.
pub fn hive_plain<F: Shelf, S: Source, K: Sink, T: Sink>(
    alloc: Global,
    words: &[&str],
    shelf: &mut F,
    source: &mut S,
    sink: &mut K,
    trace: &mut T,
) -> Ran
    requires files { HasFile (texts words.now) (F.has shelf.old) }
    requires room { HasRoom (texts words.now) (F.files shelf.old) (S.rest source.old) (K.admits sink.old) }
    requires trace_room { HasTraceRoom (texts words.now) (F.files shelf.old) (S.rest source.old) (T.admits trace.old) }
    ensures { IsRan F.files F.faults S.rest S.faults K.got K.faults T.got T.faults (texts words.now) shelf.old shelf.new
        source.old source.new sink.old sink.new trace.old trace.new result.status result.journal.items }
{
    let asked = command(words);
    let ran = call_plain(alloc, asked, words, shelf, source, sink);
    trace_run(alloc, asked, ran, trace)
}

// The call with workers, but for the trace, and what it comes to. It differs from the one below by what runs a job.
fn call<R: Threads + Wait + Sync, F: Shelf, S: Source, K: Sink, G: Gate>(
    rt: &R,
    alloc: Global,
    asked: Option<Command>,
    words: &[&str],
    shelf: &mut F,
    source: &mut S,
    sink: &mut K,
    gate: &G,
) -> Ran
    requires asked { asked ≡ command_of (texts words.now) }
    requires within { IfSome asked IsWithin }
    requires files { HasFile (texts words.now) (F.has shelf.old) }
    requires room { HasRoom (texts words.now) (F.files shelf.old) (S.rest source.old) (K.admits sink.old) }
    ensures { IsCalled F.files F.faults S.rest S.faults K.got K.faults (texts words.now)
        shelf.old shelf.new source.old source.new sink.old sink.new result.status result.journal.items }
{
    match task_of(alloc, asked, words, shelf) {
        Task::Run(job, plan) => {
            let pumped = pump(rt, alloc, job, &plan, source, sink, gate);
            end_run(pumped, sink)
        }
        Task::RunGenerated(run) => {
            let GeneratedRun {
                job,
                plan,
                mut records,
                mut line,
            } = run;
            let pumped = pump(rt, alloc, job, &plan, &mut records, &mut line, gate);
            end_generated(pumped, line.got(), sink)
        }
        Task::Write(notice) => without_run(alloc, tell(alloc, notice, sink)),
    }
}

// The call on this thread alone.
fn call_plain<F: Shelf, S: Source, K: Sink>(
    alloc: Global,
    asked: Option<Command>,
    words: &[&str],
    shelf: &mut F,
    source: &mut S,
    sink: &mut K,
) -> Ran
    requires asked { asked ≡ command_of (texts words.now) }
    requires within { IfSome asked IsWithin }
    requires files { HasFile (texts words.now) (F.has shelf.old) }
    requires room { HasRoom (texts words.now) (F.files shelf.old) (S.rest source.old) (K.admits sink.old) }
    ensures { IsCalled F.files F.faults S.rest S.faults K.got K.faults (texts words.now)
        shelf.old shelf.new source.old source.new sink.old sink.new result.status result.journal.items }
{
    match task_of(alloc, asked, words, shelf) {
        Task::Run(job, plan) => {
            let pumped = pump_plain(alloc, job, &plan, source, sink);
            end_run(pumped, sink)
        }
        Task::RunGenerated(run) => {
            let GeneratedRun {
                job,
                plan,
                mut records,
                mut line,
            } = run;
            let pumped = pump_plain(alloc, job, &plan, &mut records, &mut line);
            end_generated(pumped, line.got(), sink)
        }
        Task::Write(notice) => without_run(alloc, tell(alloc, notice, sink)),
    }
}
