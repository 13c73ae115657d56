//! Answers as the rows show them, and what a desk tells without a change.
ghost use Rattle.hive_model.specs.Valid.{IsValidJob};

use crate::desks::alone;
use crate::hand::Hand;
use crate::held::index_of;
use crate::made::record_at;
use crate::words::{long, told, word};
use expr_code::Claimed;
use hive_model::{Entry, EventRecord, Job};
use scheduler_core::{Admit, Finished};
use std::alloc::{AllocError, Global};
use timeline::print;

/// The slot, or which record came back.
pub(crate) fn admit_text(alloc: Global, answer: &Admit, any: &str) -> Result<String, AllocError> {
    match answer {
        Admit::At { slot, place: _ } => {
            if any == "any" {
                return told(alloc, "At");
            }
            format!(in alloc; "At {slot}")
        }
        Admit::Closed(record) => format!(in alloc; "Closed {}", record.event),
        Admit::Full(record) => format!(in alloc; "Full {}", record.event),
        Admit::NoMemory(record) => format!(in alloc; "NoMemory {}", record.event),
    }
}

/// The ticket, the algorithm, the place of the event and the instance.
pub(crate) fn claim_text(
    alloc: Global,
    job: &Job,
    claimed: &Claimed,
    any: &str,
) -> Result<String, AllocError> {
    let ticket = claimed.ticket();
    let place = claimed.place();
    if any == "any" {
        return format!(in alloc; "Job {ticket} {place}");
    }
    let name = name_of(job, claimed.algorithm());
    match claimed.clone_number() {
        Some(instance) => format!(in alloc; "Job {ticket} {name} {place} {instance}"),
        None => format!(in alloc; "Job {ticket} {name} {place} -"),
    }
}

fn name_of(job: &Job, number: u16) -> &str {
    match job.algorithms().get(usize::from(number)) {
        Some(algorithm) => algorithm.name.as_str(),
        None => "?",
    }
}

/// Whether the result is what the record at its place comes to by itself.
pub(crate) fn is_due(
    alloc: Global,
    job: &Job,
    admitted: &[EventRecord],
    finished: &Finished,
) -> Result<bool, AllocError>
    requires { IsValidJob job.now }
{
    match record_at(admitted, finished.place) {
        Some(record) => Ok(alone(alloc, job, record)? == finished.result),
        None => Ok(false),
    }
}

/// What a call shows that changes nothing.
pub(crate) fn shown(alloc: Global, hand: &Hand, words: &[&str]) -> Result<String, AllocError> {
    match word(words, 0) {
        "slots" => format!(in alloc; "{}", hand.desk.slots()),
        "admitted" => admitted_text(alloc, hand.desk.admitted()),
        "journal" => entries_text(alloc, hand.desk.journal()),
        "entry" => entries_text(alloc, last_of(hand.desk.journal())),
        "inputs" => inputs_text(alloc, hand.held.as_slice(), long(words, 1)),
        "result" => result_text(alloc, hand),
        _ => told(alloc, "no call"),
    }
}

fn admitted_text(alloc: Global, records: &[EventRecord]) -> Result<String, AllocError> {
    let mut events = Vec::new(alloc);
    for record in records {
        events.push(record.event)?;
    }
    format!(in alloc; "{events:?}")
}

/// The entries as a timeline tells them, with commas between.
pub(crate) fn entries_text(alloc: Global, entries: &[Entry]) -> Result<String, AllocError> {
    let bytes = print(alloc, entries)?;
    let text = String::from_utf8_lossy(alloc, bytes.as_slice())?;
    let text = text.as_str().trim_end().replace(alloc, "\n", ", ")?;
    format!(in alloc; "[{text}]")
}

fn last_of(entries: &[Entry]) -> &[Entry] {
    &entries[entries.len().saturating_sub(1)..]
}

fn inputs_text(alloc: Global, held: &[Claimed], ticket: u64) -> Result<String, AllocError> {
    match index_of(held, ticket) {
        Some(index) => format!(in alloc; "{:?}", held[index].inputs()),
        None => told(alloc, "not held"),
    }
}

fn result_text(alloc: Global, hand: &Hand) -> Result<String, AllocError> {
    match &hand.ended {
        Some(ended) => format!(in alloc;
            "{:?} {:?} {:?}",
            ended.decisions(),
            ended.ends(),
            ended.store
        ),
        None => told(alloc, "no result"),
    }
}
