//! Writing generated records.
ghost use Rattle.std.specs.Prelude.{◌≡◌, ◌≤◌, OnErr, OnOk};
ghost use Rattle.std.specs.Io.KnownBytes.{Appends};
ghost use Rattle.gen_out.specs.Sent.{OutputCause};
ghost use Rattle.hive_edge.specs.Sink.{BreaksOff};
ghost use Rattle.hive_gen.specs.EventTexts.{records_text};
ghost use Rattle.text_model.specs.declared.limits.TheConstants.{MOST_EVENTS};

use hive_edge::{Sink, send};
use hive_gen::Generator;
use std::alloc::Global;
use thiserror::Error;

/// Why a text wasn't written to its end.
#[derive(Clone, Copy, Debug, PartialEq, Eq, Error)]
pub enum OutputFault {
    /// The sink failed: its count of faults rose, or stands at its last value.
    #[error("the sink failed")]
    Failed,
    /// Memory ran out.
    #[error("memory ran out")]
    NoMemory,
}

/// Writes the generated records of a start and a number of events (docs/FORMATS.md, "Generator"), piece by
/// piece, so that it takes no memory that grows with their number. It flushes nothing. After an error a front
/// of the text was written.
pub fn send_records<K: Sink>(
    alloc: Global,
    start: u64,
    events: u32,
    sink: &mut K,
) -> Result<(), OutputFault>
    requires few { events ≤ MOST_EVENTS }
    requires room { K.admits sink.old (records_text start events) }
    ensures bytes { OnOk result (Appends (K.got sink.old) (K.got sink.new) (records_text start events)) }
    ensures broken { OnErr result (BreaksOff (K.got sink.old) (K.got sink.new)
        (K.admits sink.old) (K.admits sink.new) (records_text start events)) }
    ensures cause { OutputCause (K.faults sink.old) (K.faults sink.new) result }
{
    let mut generator = Generator::new(start, events);
    let mut piece = Vec::new(alloc);
    'pieces: while !generator.is_end() {
        piece.clear();
        match generator.push_piece(&mut piece) {
            Ok(()) => {}
            Err(_) => return Err(OutputFault::NoMemory),
        }
        match send(sink, piece.as_slice()) {
            Ok(()) => {}
            Err(_) => return Err(OutputFault::Failed),
        }
    }
    Ok(())
}
