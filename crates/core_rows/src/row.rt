//! What a row comes to.
ghost use Rattle.std.specs.Arc.{arc_value};
ghost use Rattle.core_rows.specs.Hands.{IsHandOf};
ghost use Rattle.hive_model.specs.Valid.{IsValidJob};

use crate::calls::call_text;
use crate::case::Case;
use crate::hand::Hand;
use crate::records::records_of;
use crate::words::{push_call, told};
use hive_model::{EventRecord, Job, MOST_SLOTS};
use std::alloc::{AllocError, Global};
use std::sync::Arc;

/// What the calls of a row answer.
pub(crate) fn row_text(alloc: Global, job: Job, case: &Case<'_>) -> Result<String, AllocError>
    requires { IsValidJob job }
{
    let job = Arc::new(alloc, job)?;
    job_text(alloc, &job, case)
}

fn job_text(alloc: Global, job: &Arc<Job>, case: &Case<'_>) -> Result<String, AllocError>
    requires { IsValidJob (arc_value job.now) }
{
    let records = records_of(alloc, job, case.records)?;
    desk_text(alloc, job, records.as_slice(), case)
}

fn desk_text(
    alloc: Global,
    job: &Arc<Job>,
    records: &[EventRecord],
    case: &Case<'_>,
) -> Result<String, AllocError>
    requires { IsValidJob (arc_value job.now) }
{
    if case.slots == 0 || case.slots > MOST_SLOTS {
        return told(alloc, "no desk");
    }
    let mut hand = Hand::new(alloc, Arc::try_clone(job)?, case.slots)?;
    let text = calls_text(alloc, job, &mut hand, records, case.calls);
    hand.put_away();
    text
}

fn calls_text(
    alloc: Global,
    job: &Job,
    hand: &mut Hand,
    records: &[EventRecord],
    calls: &str,
) -> Result<String, AllocError>
    requires valid { IsValidJob job.now }
    requires hand { IsHandOf job.now hand.old }
    ensures { IsHandOf job.now hand.new }
{
    let mut all = String::new(alloc);
    for call in calls.split(';') {
        let words: Vec<&str> = call.split_whitespace().collect(alloc)?;
        let text = call_text(alloc, job, hand, records, words.as_slice())?;
        push_call(&mut all, text.as_str())?;
    }
    Ok(all)
}
