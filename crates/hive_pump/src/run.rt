//! Steps of a run: a piece of the input, and the last line.
ghost use Rattle.std.specs.Prelude.{◌≡◌, ◌<◌, ◌+◌, ◌^◌, [], OnOk, false, length};
ghost use Rattle.hive_pump.specs.Input.{FeedsOn};
ghost use Rattle.hive_pump.specs.Steps.{HasLine, PutsLast, line_at};

use crate::ending::Ending;
use event_records::Records;
use hive_edge::{Sink, Source, send};
use report_text::{Counts, push_stop_record};
use std::alloc::AllocError;

/// Reads a piece of the input, and hands it to the reader of records, or that the input has ended.
pub(crate) fn read_on<S: Source>(
    source: &mut S,
    buffer: &mut [u8],
    reader: &mut Records,
    taken: &mut usize,
) -> Result<(), Ending>
    requires buffer { 0 < length buffer.old }
    requires open { reader.old.ended ≡ false }
    requires few { taken.old + length buffer.old < 2 ^ 63 }
    ensures { FeedsOn S.rest S.faults source.old source.new reader.old reader.new taken.old taken.new result }
{
    match source.read(buffer) {
        Ok(0) => {
            reader.end();
            Ok(())
        }
        Ok(count) => {
            let (piece, _) = buffer.split_at(count);
            reader.feed(piece)?;
            *taken += count;
            Ok(())
        }
        Err(_) => Err(Ending::Source),
    }
}

/// Writes the last line of a run that ended so, and says how it ended then.
pub(crate) fn put_last<K: Sink>(
    ending: Ending,
    counts: &Counts,
    text: &mut Vec<u8>,
    sink: &mut K,
) -> Ending
    requires ends { HasLine ending }
    requires room { K.admits sink.old (line_at ending counts.now) }
    ensures { PutsLast K.got K.faults K.admits ending counts.now sink.old sink.new result }
{
    text.clear();
    if push_last(ending, counts, text).is_err() {
        return Ending::NoMemory;
    }
    match send(sink, text.as_slice()) {
        Ok(()) => ending,
        Err(_) => Ending::Sink,
    }
}

fn push_last(ending: Ending, counts: &Counts, text: &mut Vec<u8>) -> Result<(), AllocError>
    requires { text.old.items ≡ [] }
    ensures { OnOk result (text.new.items ≡ line_at ending counts.now) }
{
    match ending {
        Ending::All => counts.push_line(text),
        Ending::Refused(refusal) => push_stop_record(text, &refusal),
        Ending::Source => text.extend_from_slice(b"stop source\n"),
        Ending::Sink => Ok(()),
        Ending::NoMemory => Ok(()),
    }
}
