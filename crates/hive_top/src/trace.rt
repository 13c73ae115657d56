//! The journal of a run, as text.
ghost use Rattle.std.specs.Io.KnownBytes.{Appends};
ghost use Rattle.std.specs.Prelude.{◌≡◌, ◌≢◌, [], IsFalse, IsTrue, OnErr, OnOk, true, false};
ghost use Rattle.gen_out.specs.Sent.{OutputCause};
ghost use Rattle.hive_edge.specs.Sink.{BreaksOff};
ghost use Rattle.text_model.specs.Timeline.{timeline};
ghost use Rattle.hive_top.specs.Status.{IsWhole};
ghost use Rattle.hive_top.specs.Traces.{Follows, IsTraced};
ghost use Rattle.hive_top.specs.Words.{calls_trace};

use crate::commands::{Command, Verb};
use crate::ran::Ran;
use crate::status::Status;
use gen_out::OutputFault;
use hive_edge::{Sink, send};
use hive_model::Entry;
use std::alloc::Global;
use timeline::print;

// How many entries are made text of and written at once.
const PIECE: usize = 4_096;

/// Writes the journal of a call to the trace and flushes it, where that is asked for, a job was run, and nothing broke
/// the call off.
pub fn trace_run<T: Sink>(alloc: Global, asked: Option<Command>, ran: Ran, trace: &mut T) -> Ran
    requires room { calls_trace asked ≡ true → IsWhole ran.status → ran.journal.items ≢ []
        → T.admits trace.old (timeline ran.journal.items) }
    ensures follows { Follows ran.status result.status (T.faults trace.old) (T.faults trace.new) }
    ensures traced { calls_trace asked ≡ true
        → IsTraced result.status (T.got trace.old) (T.got trace.new) ran.journal.items }
    ensures unasked { calls_trace asked ≡ false → result.status ≡ ran.status }
    ensures untouched { calls_trace asked ≡ false → trace.new ≡ trace.old }
    ensures journal { result.journal.items ≡ ran.journal.items }
{
    if !is_traced(asked) {
        return ran;
    }
    if is_nothing(&ran) {
        return ran;
    }
    Ran {
        status: print_journal(alloc, ran.status, ran.journal.as_slice(), trace),
        journal: ran.journal,
    }
}

// Whether the journal is asked for.
fn is_traced(asked: Option<Command>) -> bool
    ensures { result ≡ calls_trace asked }
{
    match asked {
        Some(Command::OnFile(Verb::Run(how))) => how.timeline,
        Some(Command::OnFile(Verb::Check)) => false,
        Some(Command::Generate(_)) => false,
        Some(Command::Bulk(_, _)) => false,
        None => false,
    }
}

// Whether there is nothing to write: no job was run, or the call was broken off.
fn is_nothing(ran: &Ran) -> bool
    ensures none { IsTrue result → IsWhole ran.now.status → ran.now.journal.items ≡ [] }
    ensures whole { IsFalse result → IsWhole ran.now.status }
    ensures some { IsFalse result → ran.now.journal.items ≢ [] }
{
    if is_broken_off(ran.status) {
        return true;
    }
    ran.journal.as_slice().is_empty()
}

fn is_broken_off(status: Status) -> bool
    ensures whole { IsFalse result → IsWhole status }
    ensures broken { IsTrue result → IsWhole status → ⊥ }
{
    match status {
        Status::NoMemory => true,
        Status::Output => true,
        _ => false,
    }
}

// Writes the journal of a call that would end so, flushes the trace, and gives how the call ends.
fn print_journal<T: Sink>(alloc: Global, status: Status, journal: &[Entry], trace: &mut T) -> Status
    requires room { T.admits trace.old (timeline journal.now) }
    requires whole { IsWhole status }
    ensures follows { Follows status result (T.faults trace.old) (T.faults trace.new) }
    ensures traced { IsTraced result (T.got trace.old) (T.got trace.new) journal.now }
{
    match send_journal(alloc, journal, trace) {
        Ok(()) => match trace.flush() {
            Ok(()) => status,
            Err(_) => Status::Output,
        },
        Err(OutputFault::Failed) => Status::Output,
        Err(OutputFault::NoMemory) => Status::NoMemory,
    }
}

// Writes the text of a journal piece by piece, so that it takes no memory that grows with the journal. It flushes nothing.
// After an error a front of the text was written.
fn send_journal<T: Sink>(alloc: Global, journal: &[Entry], trace: &mut T) -> Result<(), OutputFault>
    requires room { T.admits trace.old (timeline journal.now) }
    ensures bytes { OnOk result (Appends (T.got trace.old) (T.got trace.new) (timeline journal.now)) }
    ensures broken { OnErr result (BreaksOff (T.got trace.old) (T.got trace.new)
        (T.admits trace.old) (T.admits trace.new) (timeline journal.now)) }
    ensures cause { OutputCause (T.faults trace.old) (T.faults trace.new) result }
{
    let mut at = 0;
    'pieces: while at < journal.len() {
        let end = at + PIECE.min(journal.len() - at);
        let Ok(text) = print(alloc, &journal[at..end]) else {
            return Err(OutputFault::NoMemory);
        };
        match send(trace, text.as_slice()) {
            Ok(()) => at = end,
            Err(_) => return Err(OutputFault::Failed),
        }
    }
    Ok(())
}
