//! How a run ends.
ghost use Rattle.std.specs.Prelude.{◌≡◌};
ghost use Rattle.hive_top.specs.Bulk.{WroteLine};
ghost use Rattle.hive_top.specs.RunsTo.{Flushes, status_by};
ghost use Rattle.hive_top.specs.Status.{IsWhole};

use crate::lines::put_line;
use crate::ran::Ran;
use crate::status::Status;
use hive_edge::Sink;
use hive_pump::{Ending, Pumped};
use report_text::Counts;

/// What a run came to, after the sink was flushed where nothing broke the run off.
pub fn end_run<K: Sink>(pumped: Pumped, sink: &mut K) -> Ran
    ensures flushed { Flushes (K.got sink.old) (K.got sink.new) (K.faults sink.old) (K.faults sink.new)
        (status_by pumped.ending pumped.counts) result.status }
    ensures journal { result.journal.items ≡ pumped.journal.items }
{
    Ran {
        status: flush(sink, status_of(pumped.ending, &pumped.counts)),
        journal: pumped.journal,
    }
}

/// What a run in memory came to, after its line was written.
pub fn end_generated<K: Sink>(pumped: Pumped, line: &[u8], sink: &mut K) -> Ran
    requires room { IsWhole (status_by pumped.ending pumped.counts) → K.admits sink.old line.now }
    ensures wrote { WroteLine line.now (status_by pumped.ending pumped.counts) result.status
        (K.got sink.old) (K.got sink.new) (K.faults sink.old) (K.faults sink.new) }
    ensures journal { result.journal.items ≡ pumped.journal.items }
{
    Ran {
        status: put_whole(sink, line, status_of(pumped.ending, &pumped.counts)),
        journal: pumped.journal,
    }
}

// Writes the line of a run that ended so. A line that memory had no room for is want of memory.
fn put_whole<K: Sink>(sink: &mut K, line: &[u8], status: Status) -> Status
    requires room { IsWhole status → K.admits sink.old line.now }
    ensures { WroteLine line.now status result (K.got sink.old) (K.got sink.new)
        (K.faults sink.old) (K.faults sink.new) }
{
    match status {
        Status::Output => Status::NoMemory,
        Status::NoMemory => Status::NoMemory,
        _ => put_line(sink, line, status),
    }
}

fn status_of(ending: Ending, counts: &Counts) -> Status
    ensures { result ≡ status_by ending counts.now }
{
    match ending {
        Ending::All => all_or_not(counts),
        Ending::Refused(_) => Status::Record,
        Ending::Source => Status::Input,
        Ending::Sink => Status::Output,
        Ending::NoMemory => Status::NoMemory,
    }
}

fn all_or_not(counts: &Counts) -> Status
    ensures { result ≡ status_by Ending.All counts.now }
{
    if counts.ok == counts.events {
        Status::AllOk
    } else {
        Status::SomeNot
    }
}

/// Flushes the sink where a call would end so, and gives the status with which it ends.
pub fn flush<K: Sink>(sink: &mut K, status: Status) -> Status
    ensures { Flushes (K.got sink.old) (K.got sink.new) (K.faults sink.old) (K.faults sink.new) status result }
{
    match status {
        Status::Output => Status::Output,
        Status::NoMemory => Status::NoMemory,
        _ => match sink.flush() {
            Ok(()) => status,
            Err(_) => Status::Output,
        },
    }
}
