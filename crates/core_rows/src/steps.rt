//! Single steps of a trial.
ghost use Rattle.std.specs.Prelude.{◌<◌, IfSome, length};
ghost use Rattle.core_rows.specs.Hands.{IsHandOf};
ghost use Rattle.expr_code.specs.Claim.{IsOfJob};
ghost use Rattle.hive_model.specs.Valid.{IsValidJob};

use crate::counts::Counts;
use crate::desks;
use crate::fitting::fits;
use crate::hand::Hand;
use crate::held::{hold, performed, take_at};
use crate::made::record_at;
use crate::numbers::Numbers;
use expr_code::Claimed;
use hive_model::{EventRecord, Job};
use scheduler_core::{Admit, Claim, Finished, Give, Recall};
use std::alloc::{AllocError, Global};

/// One call of the desk, which is drawn.
pub(crate) fn step(
    alloc: Global,
    job: &Job,
    numbers: &mut Numbers,
    hand: &mut Hand,
    waiting: &mut Vec<EventRecord>,
    counts: &mut Counts,
) -> Result<(), AllocError>
    requires valid { IsValidJob job.now }
    requires hand { IsHandOf job.now hand.old }
    ensures { IsHandOf job.now hand.new }
{
    let drawn = numbers.below(16);
    if drawn < 3 {
        admit(alloc, job, hand, waiting, counts)
    } else if drawn < 8 {
        claim(alloc, job, hand, counts)
    } else if drawn < 12 {
        done_any(alloc, job, numbers, hand, counts)
    } else if drawn < 13 {
        back_any(job, numbers, hand, counts);
        Ok(())
    } else if drawn < 14 {
        recall(alloc, job, hand, counts)
    } else {
        retire(alloc, job, hand, counts)
    }
}

// More rounds than any trial needs.
const MOST_ROUNDS: u32 = 100_000;

/// All that is left: every event is admitted and ends.
pub(crate) fn finish(
    alloc: Global,
    job: &Job,
    hand: &mut Hand,
    waiting: &mut Vec<EventRecord>,
    counts: &mut Counts,
) -> Result<(), AllocError>
    requires valid { IsValidJob job.now }
    requires hand { IsHandOf job.now hand.old }
    ensures { IsHandOf job.now hand.new }
{
    for _round in 0..MOST_ROUNDS {
        admit(alloc, job, hand, waiting, counts)?;
        claim(alloc, job, hand, counts)?;
        done_first(alloc, job, hand, counts)?;
        retire(alloc, job, hand, counts)?;
        if waiting.is_empty() && is_over(alloc, job, hand)? {
            return Ok(());
        }
    }
    counts.check(false);
    Ok(())
}

// Whether every event has ended, after the last.
fn is_over(alloc: Global, job: &Job, hand: &mut Hand) -> Result<bool, AllocError>
    requires { IsHandOf job.now hand.old }
    ensures { IsHandOf job.now hand.new }
{
    let _said = desks::last(job, &mut hand.desk);
    match desks::claim(alloc, job, &mut hand.desk, 0) {
        Claim::Over => Ok(true),
        Claim::Idle { running: _ } => Ok(false),
        Claim::NoMemory => Err(AllocError),
        Claim::Job(claimed) => {
            hold(job, &mut hand.held, claimed)?;
            Ok(false)
        }
    }
}

// The next record. It may be that every slot is busy.
fn admit(
    alloc: Global,
    job: &Job,
    hand: &mut Hand,
    waiting: &mut Vec<EventRecord>,
    counts: &mut Counts,
) -> Result<(), AllocError>
    requires { IsHandOf job.now hand.old }
    ensures { IsHandOf job.now hand.new }
{
    match waiting.pop() {
        Some(record) => admit_record(alloc, job, hand, record, waiting, counts),
        None => Ok(()),
    }
}

fn admit_record(
    alloc: Global,
    job: &Job,
    hand: &mut Hand,
    record: EventRecord,
    waiting: &mut Vec<EventRecord>,
    counts: &mut Counts,
) -> Result<(), AllocError>
    requires { IsHandOf job.now hand.old }
    ensures { IsHandOf job.now hand.new }
{
    if !fits(job, &record) {
        counts.check(false);
        return Ok(());
    }
    let answer = desks::admit(alloc, job, &mut hand.desk, record);
    put_answer(answer, hand.desk.slots(), waiting, counts)
}

// A record that came back waits on.
fn put_answer(
    answer: Admit,
    slots: u8,
    waiting: &mut Vec<EventRecord>,
    counts: &mut Counts,
) -> Result<(), AllocError> {
    match answer {
        Admit::At { slot, place: _ } => {
            counts.check(slot < slots);
            Ok(())
        }
        Admit::Full(record) => Ok(waiting.push(record)?),
        Admit::Closed(_) => {
            counts.check(false);
            Ok(())
        }
        Admit::NoMemory(_) => Err(AllocError),
    }
}

// Every claim that is outstanding is held.
fn claim(alloc: Global, job: &Job, hand: &mut Hand, counts: &mut Counts) -> Result<(), AllocError>
    requires { IsHandOf job.now hand.old }
    ensures { IsHandOf job.now hand.new }
{
    match desks::claim(alloc, job, &mut hand.desk, 1) {
        Claim::Job(claimed) => hold(job, &mut hand.held, claimed),
        Claim::Idle { running } => {
            counts.check(running as usize == hand.held.len());
            Ok(())
        }
        Claim::Over => {
            counts.check(hand.held.is_empty());
            Ok(())
        }
        Claim::NoMemory => Err(AllocError),
    }
}

fn done_any(
    alloc: Global,
    job: &Job,
    numbers: &mut Numbers,
    hand: &mut Hand,
    counts: &mut Counts,
) -> Result<(), AllocError>
    requires { IsHandOf job.now hand.old }
    ensures { IsHandOf job.now hand.new }
{
    match numbers.index(hand.held.len()) {
        Some(index) => {
            let claimed = take_at(job, &mut hand.held, index);
            done(alloc, job, hand, claimed, counts)
        }
        None => Ok(()),
    }
}

fn done_first(
    alloc: Global,
    job: &Job,
    hand: &mut Hand,
    counts: &mut Counts,
) -> Result<(), AllocError>
    requires { IsHandOf job.now hand.old }
    ensures { IsHandOf job.now hand.new }
{
    if hand.held.is_empty() {
        return Ok(());
    }
    let claimed = take_at(job, &mut hand.held, 0);
    done(alloc, job, hand, claimed, counts)
}

fn done(
    alloc: Global,
    job: &Job,
    hand: &mut Hand,
    claimed: Claimed,
    counts: &mut Counts,
) -> Result<(), AllocError>
    requires hand { IsHandOf job.now hand.old }
    requires of_job { IsOfJob job.now claimed }
    ensures { IsHandOf job.now hand.new }
{
    let done = performed(alloc, claimed)?;
    match desks::done(job, &mut hand.desk, done) {
        Give::Booked => counts.executions = counts.executions.saturating_add(1),
        Give::NotOutstanding(_) => counts.check(false),
    }
    Ok(())
}

fn back_any(job: &Job, numbers: &mut Numbers, hand: &mut Hand, counts: &mut Counts)
    requires { IsHandOf job.now hand.old }
    ensures { IsHandOf job.now hand.new }
{
    if let Some(index) = numbers.index(hand.held.len()) {
        let claimed = take_at(job, &mut hand.held, index);
        counts.check(back(job, hand, claimed));
    }
}

// Whether it was put back.
fn back(job: &Job, hand: &mut Hand, claimed: Claimed) -> bool
    requires hand { IsHandOf job.now hand.old }
    requires of_job { IsOfJob job.now claimed }
    ensures { IsHandOf job.now hand.new }
{
    match desks::back(job, &mut hand.desk, claimed) {
        Give::Booked => true,
        Give::NotOutstanding(claimed) => {
            let _lent = claimed.into_lent();
            false
        }
    }
}

// The oldest claim that is held is put back, and is refused when it comes.
fn recall(alloc: Global, job: &Job, hand: &mut Hand, counts: &mut Counts) -> Result<(), AllocError>
    requires { IsHandOf job.now hand.old }
    ensures { IsHandOf job.now hand.new }
{
    match desks::recall(alloc, job, &mut hand.desk) {
        Recall::Put => {
            let stale = back_oldest(job, hand);
            counts.check(stale);
            Ok(())
        }
        Recall::Nothing => {
            counts.check(hand.held.is_empty());
            Ok(())
        }
        Recall::NoMemory => Err(AllocError),
    }
}

// Whether the oldest claim is refused.
fn back_oldest(job: &Job, hand: &mut Hand) -> bool
    requires { IsHandOf job.now hand.old }
    ensures { IsHandOf job.now hand.new }
{
    match oldest(hand.held.as_slice()) {
        Some(index) => {
            let claimed = take_at(job, &mut hand.held, index);
            !back(job, hand, claimed)
        }
        None => false,
    }
}

// The claim with the least ticket.
fn oldest(held: &[Claimed]) -> Option<usize>
    ensures { IfSome result (λ index. index < length held.now) }
{
    let mut found = None;
    let mut least = u64::MAX;
    for (index, claimed) in held.iter().enumerate() {
        if claimed.ticket() < least {
            least = claimed.ticket();
            found = Some(index);
        }
    }
    found
}

fn retire(alloc: Global, job: &Job, hand: &mut Hand, counts: &mut Counts) -> Result<(), AllocError>
    requires valid { IsValidJob job.now }
    requires hand { IsHandOf job.now hand.old }
    ensures { IsHandOf job.now hand.new }
{
    match desks::retire(job, &mut hand.desk) {
        Some(finished) => check_result(alloc, job, hand.desk.admitted(), &finished, counts),
        None => Ok(()),
    }
}

// Counts the event, and whether its result is that of its record by itself.
fn check_result(
    alloc: Global,
    job: &Job,
    admitted: &[EventRecord],
    finished: &Finished,
    counts: &mut Counts,
) -> Result<(), AllocError>
    requires { IsValidJob job.now }
{
    counts.end(finished.result.status);
    match record_at(admitted, finished.place) {
        Some(record) => {
            let due = desks::alone(alloc, job, record)?;
            counts.check(due == finished.result);
            counts.owe(due.ends());
        }
        None => counts.check(false),
    }
    Ok(())
}
