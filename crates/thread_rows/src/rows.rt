//! What rows come to.
use crate::call::{Given, call};
use crate::case::{Held, Journal};
use crate::checks::first_broken;
use crate::difference::difference;
use crate::hold::Hold;
use crate::law::LAWS;
use crate::sample::{Origin, Sample};
use crate::verdict::{summary, trouble_with};
use crate::watch::Watch;
use hive_model::Entry;
use hive_top::DEFAULT_WORKERS;
use hive_workers::NoGate;
use std::alloc::{AllocError, Global};
use std::sync::Wait;
use std::thread::Threads;
use timeline::parse;

/// What a call of the sample comes to that is made so many times.
pub(crate) fn run_text<R: Threads + Wait + Sync>(
    rt: &R,
    alloc: Global,
    sample: &Sample,
    words: &str,
    times: u64,
) -> Result<String, AllocError> {
    for time in 1..times.saturating_add(1) {
        let watch = watch_of(alloc, sample, Hold::new(0, 0))?;
        if let Some(trouble) = trouble_of(rt, alloc, sample, words, &watch)? {
            return format!(in alloc; "{words}: time {time}: {trouble}");
        }
    }
    let summary = summary(alloc, sample)?;
    format!(in alloc; "{words}: {times} times the same: {summary}")
}

/// What a call comes to whose executions are held until so many have begun.
pub(crate) fn hold_text<R: Threads + Wait + Sync>(
    rt: &R,
    alloc: Global,
    sample: &Sample,
    words: &str,
    held: Held,
) -> Result<String, AllocError> {
    let wanted = held.wanted;
    let watch = watch_of(alloc, sample, Hold::new(wanted, held.patience))?;
    if let Some(trouble) = trouble_of(rt, alloc, sample, words, &watch)? {
        return format!(in alloc; "{words}: {trouble}");
    }
    let often = if watch.was_reached() { "once" } else { "never" };
    let summary = summary(alloc, sample)?;
    format!(in alloc;
        "{words}: {often} {wanted} executions between claim and result at one time, and the same: {summary}"
    )
}

fn watch_of(alloc: Global, sample: &Sample, hold: Hold) -> Result<Watch<'_>, AllocError> {
    let events = sample.due.results.len();
    Watch::new(alloc, &sample.job, events, hold)
}

// Makes the call, and says what isn't as it must be.
fn trouble_of<R: Threads + Wait + Sync>(
    rt: &R,
    alloc: Global,
    sample: &Sample,
    words: &str,
    watch: &Watch<'_>,
) -> Result<Option<String>, AllocError> {
    let called = call(rt, alloc, words, sample.given(), watch)?;
    trouble_with(alloc, sample, words, &called, watch)
}

/// The sample of generated options and records, of which a brief run is due.
pub(crate) fn generated<R: Threads + Wait + Sync>(
    rt: &R,
    alloc: Global,
    records: &str,
) -> anyhow::Result<Sample> {
    let options = written(rt, alloc, "gen options")?;
    let records = written(rt, alloc, records)?;
    Sample::new(alloc, options, Origin::Text(records), true)
}

fn written<R: Threads + Wait + Sync>(
    rt: &R,
    alloc: Global,
    words: &str,
) -> Result<Vec<u8>, AllocError> {
    let nothing = Given {
        options: b"",
        records: b"",
    };
    let called = call(rt, alloc, words, nothing, &NoGate)?;
    Vec::from_slice(alloc, called.text())
}

/// Which law a journal breaks that is written by hand.
pub(crate) fn journal_text(
    alloc: Global,
    options: Vec<u8>,
    row: &Journal<'_>,
) -> anyhow::Result<String> {
    let records = lines(alloc, row.records)?;
    let sample = Sample::new(alloc, options, Origin::Text(records), false)?;
    let entries = lines(alloc, row.entries)?;
    match parse(alloc, entries.as_slice()) {
        Ok(journal) => Ok(broken_text(alloc, &sample, row, journal.as_slice())?),
        Err(refusal) => Ok(format!(in alloc; "{}: {refusal:?}", row.name)?),
    }
}

fn broken_text(
    alloc: Global,
    sample: &Sample,
    row: &Journal<'_>,
    journal: &[Entry],
) -> Result<String, AllocError> {
    match first_broken(alloc, sample, row.slots, DEFAULT_WORKERS, journal)? {
        Some(broken) => {
            let broken = broken.text(alloc)?;
            format!(in alloc; "{}: {broken}", row.name)
        }
        None => format!(in alloc; "{}: kept {LAWS} laws", row.name),
    }
}

// Lines that are written with `;` between.
fn lines(alloc: Global, text: &str) -> Result<Vec<u8>, AllocError> {
    let mut lines = Vec::new(alloc);
    for line in text.split(';') {
        lines.extend_from_slice(line.trim().as_bytes())?;
        lines.push(b'\n')?;
    }
    Ok(lines)
}

/// Where two texts differ.
pub(crate) fn texts_text(alloc: Global, due: &str, got: &str) -> Result<String, AllocError> {
    match difference(alloc, due.as_bytes(), got.as_bytes())? {
        Some(place) => Ok(place),
        None => String::from_str(alloc, "the same"),
    }
}
