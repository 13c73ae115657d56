//! The records of a row, as text and read.
use crate::numbers::Numbers;
use anyhow::bail;
use event_records::{Next, Records};
use hive_model::{EventRecord, Job, Kind};
use std::alloc::{AllocError, Global};
use std::sync::Arc;

// What the records of every row are drawn from.
const START: u64 = 2_026;

// More answers than any row's reader gives.
const MOST_ANSWERS: u32 = 100_000;

/// A records text of so many events that fit the job, drawn by lot but the same each time.
pub(crate) fn drawn(alloc: Global, job: &Job, count: u64) -> Result<String, AllocError> {
    let mut numbers = Numbers::new(START);
    let mut text = header(alloc, job)?;
    for event in 1..count.saturating_add(1) {
        push_record(&mut text, &mut numbers, job, event)?;
    }
    Ok(text)
}

fn header(alloc: Global, job: &Job) -> Result<String, AllocError> {
    let mut text = String::from_str(alloc, "event")?;
    for raw in job.raws() {
        text.push_str(",")?;
        text.push_str(raw.name.as_str())?;
    }
    text.push_str("\n")?;
    Ok(text)
}

fn push_record(
    text: &mut String,
    numbers: &mut Numbers,
    job: &Job,
    event: u64,
) -> Result<(), AllocError> {
    write!(text, "{event}")?;
    for raw in job.raws() {
        text.push_str(",")?;
        push_cell(text, numbers, raw.kind)?;
    }
    text.push_str("\n")
}

// One of twenty cells is absent.
fn push_cell(text: &mut String, numbers: &mut Numbers, kind: Kind) -> Result<(), AllocError> {
    if numbers.below(20) == 0 {
        return text.push_str("?");
    }
    match kind {
        Kind::Num => {
            let number = numbers.below(12);
            write!(text, "{number}")
        }
        Kind::List => push_list(text, numbers),
    }
}

// None to four numbers.
fn push_list(text: &mut String, numbers: &mut Numbers) -> Result<(), AllocError> {
    let count = numbers.below(5);
    for index in 0..count {
        if index > 0 {
            text.push_str(" ")?;
        }
        let number = numbers.below(64);
        write!(text, "{number}")?;
    }
    Ok(())
}

/// The records of a text.
pub(crate) fn read(alloc: Global, job: &Arc<Job>, text: &[u8]) -> anyhow::Result<Vec<EventRecord>> {
    let mut reader = Records::new(alloc, Arc::try_clone(job)?)?;
    reader.feed(text)?;
    reader.end();
    take_all(alloc, &mut reader)
}

fn take_all(alloc: Global, reader: &mut Records) -> anyhow::Result<Vec<EventRecord>> {
    let mut records = Vec::new(alloc);
    for _answer in 0..MOST_ANSWERS {
        match reader.next(alloc) {
            Next::Event(record) => records.push(record)?,
            Next::Finished => return Ok(records),
            other => bail!("the records end by {other:?}"),
        }
    }
    bail!("the records don't end")
}
