//! The calls of a row.
//!
//! `admit N` brings the record at place N, and `claim W` asks for work for worker W; a claim is told by its
//! ticket, its algorithm, the place of its event and its instance, `-` for none. `done T` performs the held
//! claim with ticket T and books it, `back T` puts it back, `inputs T` gives its inputs. `made done T A I N`
//! and `made back T A I N` do it with a claim that is made by hand: with ticket T, algorithm A and instance
//! I, over the products of the event of record N. `run W` claims, performs and books until nothing can be
//! claimed, and gives how many it were.
//!
//! `retire`, `recall`, `last`, `slots`, `admitted` and `journal` are the desk's calls. `entry` gives the
//! journal's last entry, and `result` what the event that ended last came to: the decisions, the ends and the
//! store. `anew` puts a new desk in the place of this one, and gives the journal of this one.
//!
//! `any` behind a call leaves out what the rules leave free: the slot of `admit`, the algorithm and the
//! instance of `claim`, the event of `retire`.
ghost use Rattle.core_rows.specs.Hands.{IsHandOf};
ghost use Rattle.expr_code.specs.Claim.{IsOfJob};
ghost use Rattle.hive_model.specs.Valid.{IsValidJob};

use crate::desks;
use crate::fitting::fits;
use crate::hand::Hand;
use crate::held::{hold, performed, take_held};
use crate::made::{made, record_at};
use crate::shown::{admit_text, claim_text, entries_text, is_due, shown};
use crate::words::{byte, long, told, word};
use expr_code::Claimed;
use hive_model::{Duplicate, EventRecord, Job};
use scheduler_core::{Claim, Finished, Give};
use std::alloc::{AllocError, Global};
use std::mem;

// More claims than any row makes.
const MOST_CLAIMS: u32 = 1_000;

/// What a call answers.
pub(crate) fn call_text(
    alloc: Global,
    job: &Job,
    hand: &mut Hand,
    records: &[EventRecord],
    words: &[&str],
) -> Result<String, AllocError>
    requires valid { IsValidJob job.now }
    requires hand { IsHandOf job.now hand.old }
    ensures { IsHandOf job.now hand.new }
{
    match word(words, 0) {
        "admit" => admit(
            alloc,
            job,
            hand,
            record_at(records, long(words, 1)),
            word(words, 2),
        ),
        "claim" => claim(alloc, job, hand, byte(words, 1), word(words, 2)),
        "done" => done_held(alloc, job, hand, long(words, 1)),
        "back" => back_held(alloc, job, hand, long(words, 1)),
        "made" => give_made(alloc, job, hand, records, words),
        "run" => run(alloc, job, hand, byte(words, 1)),
        "retire" => retire(alloc, job, hand, word(words, 1)),
        "recall" => recall(alloc, job, hand),
        "last" => last(alloc, job, hand),
        "anew" => anew(alloc, job, hand),
        _ => shown(alloc, hand, words),
    }
}

fn admit(
    alloc: Global,
    job: &Job,
    hand: &mut Hand,
    record: Option<&EventRecord>,
    any: &str,
) -> Result<String, AllocError>
    requires { IsHandOf job.now hand.old }
    ensures { IsHandOf job.now hand.new }
{
    match record {
        Some(record) => admit_record(alloc, job, hand, record.copy(alloc)?, any),
        None => told(alloc, "no record"),
    }
}

fn admit_record(
    alloc: Global,
    job: &Job,
    hand: &mut Hand,
    record: EventRecord,
    any: &str,
) -> Result<String, AllocError>
    requires { IsHandOf job.now hand.old }
    ensures { IsHandOf job.now hand.new }
{
    if !fits(job, &record) {
        return told(alloc, "no fit");
    }
    let answer = desks::admit(alloc, job, &mut hand.desk, record);
    admit_text(alloc, &answer, any)
}

fn claim(
    alloc: Global,
    job: &Job,
    hand: &mut Hand,
    worker: u8,
    any: &str,
) -> Result<String, AllocError>
    requires { IsHandOf job.now hand.old }
    ensures { IsHandOf job.now hand.new }
{
    match desks::claim(alloc, job, &mut hand.desk, worker) {
        Claim::Job(claimed) => hold_claim(alloc, job, hand, claimed, any),
        Claim::Idle { running } => format!(in alloc; "Idle {running}"),
        Claim::Over => told(alloc, "Over"),
        Claim::NoMemory => told(alloc, "NoMemory"),
    }
}

fn hold_claim(
    alloc: Global,
    job: &Job,
    hand: &mut Hand,
    claimed: Claimed,
    any: &str,
) -> Result<String, AllocError>
    requires hand { IsHandOf job.now hand.old }
    requires of_job { IsOfJob job.now claimed }
    ensures { IsHandOf job.now hand.new }
{
    let text = claim_text(alloc, job, &claimed, any);
    hold(job, &mut hand.held, claimed)?;
    text
}

fn done_held(alloc: Global, job: &Job, hand: &mut Hand, ticket: u64) -> Result<String, AllocError>
    requires { IsHandOf job.now hand.old }
    ensures { IsHandOf job.now hand.new }
{
    match take_held(job, &mut hand.held, ticket) {
        Some(claimed) => done(alloc, job, hand, claimed),
        None => told(alloc, "not held"),
    }
}

fn done(alloc: Global, job: &Job, hand: &mut Hand, claimed: Claimed) -> Result<String, AllocError>
    requires hand { IsHandOf job.now hand.old }
    requires of_job { IsOfJob job.now claimed }
    ensures { IsHandOf job.now hand.new }
{
    let done = performed(alloc, claimed)?;
    match desks::done(job, &mut hand.desk, done) {
        Give::Booked => told(alloc, "Booked"),
        Give::NotOutstanding(done) => format!(in alloc; "NotOutstanding {}", done.ticket()),
    }
}

fn back_held(alloc: Global, job: &Job, hand: &mut Hand, ticket: u64) -> Result<String, AllocError>
    requires { IsHandOf job.now hand.old }
    ensures { IsHandOf job.now hand.new }
{
    match take_held(job, &mut hand.held, ticket) {
        Some(claimed) => back(alloc, job, hand, claimed),
        None => told(alloc, "not held"),
    }
}

fn back(alloc: Global, job: &Job, hand: &mut Hand, claimed: Claimed) -> Result<String, AllocError>
    requires hand { IsHandOf job.now hand.old }
    requires of_job { IsOfJob job.now claimed }
    ensures { IsHandOf job.now hand.new }
{
    match desks::back(job, &mut hand.desk, claimed) {
        Give::Booked => told(alloc, "Booked"),
        Give::NotOutstanding(claimed) => {
            let ticket = claimed.ticket();
            let _lent = claimed.into_lent();
            format!(in alloc; "NotOutstanding {ticket}")
        }
    }
}

fn give_made(
    alloc: Global,
    job: &Job,
    hand: &mut Hand,
    records: &[EventRecord],
    words: &[&str],
) -> Result<String, AllocError>
    requires valid { IsValidJob job.now }
    requires hand { IsHandOf job.now hand.old }
    ensures { IsHandOf job.now hand.new }
{
    match made(alloc, job, records, words)? {
        Some(claimed) => {
            if word(words, 1) == "done" {
                done(alloc, job, hand, claimed)
            } else {
                back(alloc, job, hand, claimed)
            }
        }
        None => told(alloc, "no claim"),
    }
}

fn run(alloc: Global, job: &Job, hand: &mut Hand, worker: u8) -> Result<String, AllocError>
    requires { IsHandOf job.now hand.old }
    ensures { IsHandOf job.now hand.new }
{
    let mut count: u64 = 0;
    for _claim in 0..MOST_CLAIMS {
        match desks::claim(alloc, job, &mut hand.desk, worker) {
            Claim::Job(claimed) => done_now(alloc, job, hand, claimed)?,
            Claim::Idle { running: _ } | Claim::Over | Claim::NoMemory => break,
        }
        count = count.saturating_add(1);
    }
    format!(in alloc; "ran {count}")
}

fn done_now(alloc: Global, job: &Job, hand: &mut Hand, claimed: Claimed) -> Result<(), AllocError>
    requires hand { IsHandOf job.now hand.old }
    requires of_job { IsOfJob job.now claimed }
    ensures { IsHandOf job.now hand.new }
{
    let done = performed(alloc, claimed)?;
    let _answer = desks::done(job, &mut hand.desk, done);
    Ok(())
}

fn retire(alloc: Global, job: &Job, hand: &mut Hand, any: &str) -> Result<String, AllocError>
    requires valid { IsValidJob job.now }
    requires hand { IsHandOf job.now hand.old }
    ensures { IsHandOf job.now hand.new }
{
    match desks::retire(job, &mut hand.desk) {
        Some(finished) => retire_text(alloc, job, hand, finished, any),
        None => told(alloc, "None"),
    }
}

// The place and the status of the event, with a word where its result isn't the one that it has by itself.
fn retire_text(
    alloc: Global,
    job: &Job,
    hand: &mut Hand,
    finished: Finished,
    any: &str,
) -> Result<String, AllocError>
    requires valid { IsValidJob job.now }
    requires hand { IsHandOf job.now hand.old }
    ensures { IsHandOf job.now hand.new }
{
    let word = if is_due(alloc, job, hand.desk.admitted(), &finished)? {
        ""
    } else {
        " differs"
    };
    let Finished { place, result } = finished;
    let status = result.status;
    hand.ended = Some(result);
    if any == "any" {
        format!(in alloc; "Finished {status:?}{word}")
    } else {
        format!(in alloc; "Finished {place} {status:?}{word}")
    }
}

fn recall(alloc: Global, job: &Job, hand: &mut Hand) -> Result<String, AllocError>
    requires { IsHandOf job.now hand.old }
    ensures { IsHandOf job.now hand.new }
{
    let answer = desks::recall(alloc, job, &mut hand.desk);
    format!(in alloc; "{answer:?}")
}

fn last(alloc: Global, job: &Job, hand: &mut Hand) -> Result<String, AllocError>
    requires { IsHandOf job.now hand.old }
    ensures { IsHandOf job.now hand.new }
{
    let answer = desks::last(job, &mut hand.desk);
    format!(in alloc; "{answer:?}")
}

// A new desk comes, and the journal of the one before it is told.
fn anew(alloc: Global, job: &Job, hand: &mut Hand) -> Result<String, AllocError>
    requires { IsHandOf job.now hand.old }
    ensures { IsHandOf job.now hand.new }
{
    let desk = desks::another(alloc, job, &hand.desk)?;
    let before = mem::replace(&mut hand.desk, desk);
    entries_text(alloc, before.into_journal().as_slice())
}
