//! Events through a desk.
ghost use Rattle.std.specs.Prelude.{◌≡◌, ◌<◌, IfOk};
ghost use Rattle.desk_bench.specs.Waiting.{AreFitting, IsDeskOf};
ghost use Rattle.hive_model.specs.Fits.{Fits};
ghost use Rattle.hive_model.specs.Valid.{IsValidJob};

use crate::desks::{self, SLOTS, alone};
use crate::totals::Totals;
use expr_code::{Claimed, Done, Steps, perform};
use hive_model::{EventRecord, Job};
use scheduler_core::{Admit, Claim, Desk, Finished};
use std::alloc::{AllocError, Global};
use std::marker::Brand;
use std::sync::ledger::{Blank, Ledger};

/// Brings all events to their end, the last record first.
pub(crate) fn run(
    alloc: Global,
    job: &Job,
    desk: &mut Desk,
    waiting: &mut Vec<EventRecord>,
    totals: &mut Totals,
) -> Result<(), AllocError>
    requires valid { IsValidJob job.now }
    requires desk { IsDeskOf job.now desk.old }
    requires waiting { AreFitting job.now waiting.old.items }
{
    for _step in 0..u64::MAX {
        if !step(alloc, job, desk, waiting, totals)? {
            break;
        }
    }
    Ok(())
}

// Whether an event was admitted, an algorithm run, or an event ended.
fn step(
    alloc: Global,
    job: &Job,
    desk: &mut Desk,
    waiting: &mut Vec<EventRecord>,
    totals: &mut Totals,
) -> Result<bool, AllocError>
    requires valid { IsValidJob job.now }
    requires desk { IsDeskOf job.now desk.old }
    requires waiting { AreFitting job.now waiting.old.items }
    ensures desk { IsDeskOf job.now desk.new }
    ensures waiting { AreFitting job.now waiting.new.items }
{
    if totals.inside < u64::from(SLOTS) && admit(alloc, job, desk, waiting, totals)? {
        return Ok(true);
    }
    if claim(alloc, job, desk, totals)? {
        return Ok(true);
    }
    Ok(retire(alloc, job, desk, totals)?)
}

// Whether there was a record, which was admitted.
fn admit(
    alloc: Global,
    job: &Job,
    desk: &mut Desk,
    waiting: &mut Vec<EventRecord>,
    totals: &mut Totals,
) -> Result<bool, AllocError>
    requires desk { IsDeskOf job.now desk.old }
    requires waiting { AreFitting job.now waiting.old.items }
    ensures desk { IsDeskOf job.now desk.new }
    ensures waiting { AreFitting job.now waiting.new.items }
{
    match waiting.pop() {
        Some(record) => admit_record(alloc, job, desk, record, totals),
        None => Ok(false),
    }
}

fn admit_record(
    alloc: Global,
    job: &Job,
    desk: &mut Desk,
    event: EventRecord,
    totals: &mut Totals,
) -> Result<bool, AllocError>
    requires desk { IsDeskOf job.now desk.old }
    requires fits { Fits job.now event }
    ensures { IsDeskOf job.now desk.new }
{
    match desks::admit(alloc, job, desk, event) {
        Admit::At { .. } => {
            totals.enter();
            Ok(true)
        }
        Admit::Closed(_) | Admit::Full(_) => Ok(false),
        Admit::NoMemory(_) => Err(AllocError),
    }
}

// Whether there was something to claim, which was performed and booked.
fn claim(alloc: Global, job: &Job, desk: &mut Desk, totals: &mut Totals) -> Result<bool, AllocError>
    requires { IsDeskOf job.now desk.old }
    ensures { IsDeskOf job.now desk.new }
{
    match desks::claim(alloc, job, desk) {
        Claim::Job(claimed) => {
            let done = performed(alloc, claimed)?;
            let _answer = desks::done(job, desk, done);
            totals.book();
            Ok(true)
        }
        Claim::Idle { running: _ } | Claim::Over => Ok(false),
        Claim::NoMemory => Err(AllocError),
    }
}

// The claim, performed. Where there is no memory for that, it is let go.
fn performed(alloc: Global, claimed: Claimed) -> Result<Done, AllocError>
    ensures { IfOk result (λ it. it.claim ≡ claimed) }
{
    spend::<Brand>(alloc, claimed, Blank::new(1))
}

fn spend<L: Ledger>(alloc: Global, claimed: Claimed, blank: Blank) -> Result<Done, AllocError>
    requires name { blank.name ≡ L.name }
    requires parts { blank.parts ≡ L.parts }
    requires some { 0 < L.parts }
    ensures { IfOk result (λ it. it.claim ≡ claimed) }
{
    let mut steps = Steps::<L>::new(blank);
    match perform(alloc, claimed, &mut steps) {
        Ok(done) => Ok(done),
        Err((claimed, error)) => {
            let _lent = claimed.into_lent();
            Err(error)
        }
    }
}

// Whether there was an event that had settled.
fn retire(
    alloc: Global,
    job: &Job,
    desk: &mut Desk,
    totals: &mut Totals,
) -> Result<bool, AllocError>
    requires valid { IsValidJob job.now }
    requires desk { IsDeskOf job.now desk.old }
    ensures { IsDeskOf job.now desk.new }
{
    match desks::retire(job, desk) {
        Some(finished) => {
            totals.leave();
            check(alloc, job, desk.admitted(), &finished, totals)?;
            Ok(true)
        }
        None => Ok(false),
    }
}

// Compares the result with that of its record by itself, where results are compared.
fn check(
    alloc: Global,
    job: &Job,
    admitted: &[EventRecord],
    finished: &Finished,
    totals: &mut Totals,
) -> Result<(), AllocError>
    requires { IsValidJob job.now }
{
    if totals.compares {
        match record_at(admitted, finished.place) {
            Some(record) => totals.check(alone(alloc, job, record)? == finished.result),
            None => totals.check(false),
        }
    }
    Ok(())
}

// The record at a place, from 1.
fn record_at(records: &[EventRecord], place: u64) -> Option<&EventRecord> {
    let index = place.checked_sub(1)?;
    records.get(usize::try_from(index).ok()?)
}
