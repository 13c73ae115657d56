//! Jobs that are drawn by lot, on a desk that is called by lot.
//!
//! Events are admitted, algorithms claimed, booked, put back and recalled, and events retired, in an order
//! that is drawn, until all is over. Each result must be the one that its record has by itself.
ghost use Rattle.std.specs.Prelude.{◌≤◌};
ghost use Rattle.std.specs.Arc.{arc_value};
ghost use Rattle.core_rows.specs.Hands.{IsHandOf};
ghost use Rattle.hive_model.specs.Valid.{IsValidJob};
ghost use Rattle.hive_model.specs.declared.limits.TheConstants.{MOST_SLOTS};

use crate::case::Trials;
use crate::cells::records;
use crate::counts::Counts;
use crate::drawn::options;
use crate::hand::Hand;
use crate::numbers::Numbers;
use crate::steps::{finish, step};
use hive_model::{EventRecord, Job};
use job_build::build;
use std::alloc::{AllocError, Global};
use std::sync::Arc;

/// What so many jobs with so many events each come to.
pub(crate) fn trials_text(alloc: Global, trials: &Trials<'_>) -> Result<String, AllocError> {
    let mut counts = Counts::new();
    for number in 0..trials.jobs {
        let mut numbers = Numbers::new(trials.start.wrapping_mul(1_000_003).wrapping_add(number));
        let options = options(alloc, &mut numbers)?;
        match build(alloc, options.as_str().as_bytes()) {
            Ok(job) => trial(alloc, &mut numbers, job, trials.events, &mut counts)?,
            Err(_) => counts.refused = counts.refused.saturating_add(1),
        }
    }
    counts.text(alloc)
}

fn trial(
    alloc: Global,
    numbers: &mut Numbers,
    job: Job,
    events: u64,
    counts: &mut Counts,
) -> Result<(), AllocError>
    requires { IsValidJob job }
{
    counts.jobs = counts.jobs.saturating_add(1);
    let job = Arc::new(alloc, job)?;
    with_records(alloc, numbers, &job, events, counts)
}

fn with_records(
    alloc: Global,
    numbers: &mut Numbers,
    job: &Arc<Job>,
    events: u64,
    counts: &mut Counts,
) -> Result<(), AllocError>
    requires { IsValidJob (arc_value job.now) }
{
    let mut waiting = records(alloc, numbers, job, events)?;
    with_desk(alloc, numbers, job, &mut waiting, counts)
}

fn with_desk(
    alloc: Global,
    numbers: &mut Numbers,
    job: &Arc<Job>,
    waiting: &mut Vec<EventRecord>,
    counts: &mut Counts,
) -> Result<(), AllocError>
    requires { IsValidJob (arc_value job.now) }
{
    let mut hand = Hand::new(alloc, Arc::try_clone(job)?, slots(numbers))?;
    let ran = run(alloc, job, numbers, &mut hand, waiting, counts);
    hand.put_away();
    counts.check(counts.executions == counts.due);
    ran
}

// One slot to four.
fn slots(numbers: &mut Numbers) -> u8
    ensures some { 1 ≤ result }
    ensures few { result ≤ MOST_SLOTS }
{
    match numbers.below(4) {
        0 => 1,
        1 => 2,
        2 => 3,
        _ => 4,
    }
}

// Steps that are drawn, and then all that is left.
fn run(
    alloc: Global,
    job: &Job,
    numbers: &mut Numbers,
    hand: &mut Hand,
    waiting: &mut Vec<EventRecord>,
    counts: &mut Counts,
) -> Result<(), AllocError>
    requires valid { IsValidJob job.now }
    requires hand { IsHandOf job.now hand.old }
    ensures { IsHandOf job.now hand.new }
{
    let steps = numbers.below(400);
    for _step in 0..steps {
        step(alloc, job, numbers, hand, waiting, counts)?;
    }
    finish(alloc, job, hand, waiting, counts)
}
