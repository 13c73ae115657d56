//! Generated texts (docs/FORMATS.md, "Generator").
ghost use Rattle.std.specs.Prelude.{◌≤◌};
ghost use Rattle.hive_gen.specs.EventTexts.{records_text};
ghost use Rattle.text_model.specs.declared.limits.TheConstants.{MOST_EVENTS};
ghost use Rattle.hive_top.specs.Answer.{generated};
ghost use Rattle.hive_top.specs.Called.{Wrote};
ghost use Rattle.hive_top.specs.Status.{IsOneOf};
ghost use Rattle.hive_top.specs.Words.{IsWithin};

use crate::commands::{Command, Generated, Input};
use crate::lines::put_line;
use crate::run::flush;
use crate::status::Status;
use gen_out::{OutputFault, send_records};
use hive_edge::Sink;
use hive_gen::options;
use std::alloc::Global;

/// Writes a generated text, and gives the status of that.
pub fn generate<K: Sink>(alloc: Global, text: Generated, sink: &mut K) -> Status
    requires room { K.admits sink.old (generated text).text }
    requires within { IsWithin (Command.Generate text) }
    ensures wrote { Wrote result (K.got sink.old) (K.got sink.new)
        (K.faults sink.old) (K.faults sink.new) (generated text) }
    ensures status { IsOneOf result Status.AllOk }
{
    match text {
        Generated::Options => match options(alloc) {
            Ok(text) => put_line(sink, text.as_slice(), Status::AllOk),
            Err(_) => Status::NoMemory,
        },
        Generated::Records(input) => put_records(alloc, input, sink),
    }
}

fn put_records<K: Sink>(alloc: Global, input: Input, sink: &mut K) -> Status
    requires room { K.admits sink.old (records_text input.start input.events) }
    requires few { input.events ≤ MOST_EVENTS }
    ensures wrote { Wrote result (K.got sink.old) (K.got sink.new) (K.faults sink.old) (K.faults sink.new)
        (record { text = records_text input.start input.events; status = Status.AllOk }) }
    ensures status { IsOneOf result Status.AllOk }
{
    match send_records(alloc, input.start, input.events, sink) {
        Ok(()) => flush(sink, Status::AllOk),
        Err(OutputFault::Failed) => Status::Output,
        Err(OutputFault::NoMemory) => Status::NoMemory,
    }
}
