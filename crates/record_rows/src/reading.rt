//! Reading a text in pieces.
ghost use Rattle.std.specs.Prelude.{◌≡◌, ◌<◌, false};

use crate::outcome::Outcome;
use anyhow::bail;
use event_records::{Next, Records};
use hive_model::{EventRecord, Job};
use std::alloc::Global;
use std::sync::Arc;

/// The size of a piece that holds the whole text.
pub(crate) fn whole_size(text: &[u8]) -> usize
    ensures { 0 < result }
{
    text.len().max(1)
}

/// What a reader answers for the text in pieces of that size, where at most so many answers are taken after each
/// piece.
pub(crate) fn read(
    alloc: Global,
    job: Arc<Job>,
    text: &[u8],
    size: usize,
    taken: u64,
) -> anyhow::Result<Outcome>
    requires { 0 < size }
{
    let mut records = Vec::new(alloc);
    let mut reader = Records::new(alloc, job)?;
    for piece in text.chunks(size) {
        reader.feed(piece)?;
        take(alloc, &mut reader, &mut records, taken)?;
    }
    reader.end();
    let ending = take(alloc, &mut reader, &mut records, u64::MAX)?;
    if reader.next(alloc) != ending {
        bail!("another answer after the last one");
    }
    Ok(Outcome { records, ending })
}

// The answer that is no record, or `More` where fewer answers are taken.
fn take(
    alloc: Global,
    reader: &mut Records,
    records: &mut Vec<EventRecord>,
    most: u64,
) -> anyhow::Result<Next>
    ensures { reader.new.ended ≡ reader.old.ended }
{
    for _ in 0..most {
        match reader.next(alloc) {
            Next::Event(record) => records.push(record)?,
            Next::NoMemory => bail!("out of memory"),
            answer => return Ok(answer),
        }
    }
    Ok(Next::More)
}
