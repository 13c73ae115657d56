//! What records come to, each event evaluated by itself.
ghost use Rattle.std.specs.Arc.{arc_value};
ghost use Rattle.hive_model.specs.Valid.{IsValidJob};

use crate::records::read;
use event_laws::valid_jobs::valid_is_runnable;
use hive_model::{EventRecord, EventResult, EventStatus, Job};
use hive_top::Status;
use report_text::{Counts, names_of, push_report};
use serial_meaning::closure;
use std::alloc::{AllocError, Global};
use std::sync::Arc;

/// What a run is due.
#[derive(Drop)]
pub(crate) struct Due {
    pub(crate) status: Status,
    pub(crate) text: Vec<u8>,
    pub(crate) counts: Counts,
    /// The results of the events, in input order.
    pub(crate) results: Vec<EventResult>,
}

/// What the records of a text are due: their reports in input order, unless the run is brief, and the line that counts
/// them.
pub(crate) fn evaluated(
    alloc: Global,
    job: &Arc<Job>,
    records: &[u8],
    brief: bool,
) -> anyhow::Result<Due>
    requires { IsValidJob (arc_value job.now) }
{
    let records = read(alloc, job, records)?;
    let results = results_of(alloc, job, records.as_slice())?;
    Ok(due_of(alloc, job, results, brief)?)
}

fn results_of(
    alloc: Global,
    job: &Job,
    records: &[EventRecord],
) -> Result<Vec<EventResult>, AllocError>
    requires { IsValidJob job.now }
{
    let mut results = Vec::new(alloc);
    for record in records {
        results.push(alone(alloc, job, record)?)?;
    }
    Ok(results)
}

fn alone(alloc: Global, job: &Job, record: &EventRecord) -> Result<EventResult, AllocError>
    requires { IsValidJob job.now }
{
    valid_is_runnable();
    closure(alloc, job, record)
}

fn due_of(
    alloc: Global,
    job: &Job,
    results: Vec<EventResult>,
    brief: bool,
) -> Result<Due, AllocError> {
    let counts = counts_of(results.as_slice());
    let mut text = if brief {
        Vec::new(alloc)
    } else {
        reports_of(alloc, job, results.as_slice())?
    };
    counts.push_line(&mut text)?;
    Ok(Due {
        status: status_of(&counts),
        text,
        counts,
        results,
    })
}

fn reports_of(alloc: Global, job: &Job, results: &[EventResult]) -> Result<Vec<u8>, AllocError> {
    let names = names_of(alloc, job)?;
    let mut text = Vec::new(alloc);
    for ended in results {
        push_report(&mut text, job, names.as_slice(), ended)?;
    }
    Ok(text)
}

fn counts_of(results: &[EventResult]) -> Counts {
    let mut counts = Counts::new();
    for ended in results {
        counts.events = counts.events.saturating_add(1);
        match ended.status {
            EventStatus::Ok => counts.ok = counts.ok.saturating_add(1),
            EventStatus::Failed => counts.failed = counts.failed.saturating_add(1),
            EventStatus::Stalled => counts.stalled = counts.stalled.saturating_add(1),
        }
    }
    counts
}

fn status_of(counts: &Counts) -> Status {
    if counts.ok == counts.events {
        Status::AllOk
    } else {
        Status::SomeNot
    }
}
