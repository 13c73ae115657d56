//! Times a desk beside the plain evaluation of the same events, for `bench/core`.
//!
//! With an options file and a number it makes so many records of that job, runs their events through a desk
//! with four slots, and prints what an event and what a claim took; then what it takes to evaluate each
//! record by itself. With `plain`, an options file and a file of records it writes the records' reports by a
//! plain loop, for `bench/run`. Without words it runs some events of the job in data/, and says whether each
//! has the result that its record has by itself.
#![tactic(auto)]

ghost use Rattle.std.specs.Arc.{arc_value};
ghost use Rattle.desk_bench.specs.Waiting.{AreFitting, IsDeskOf};
ghost use Rattle.hive_model.specs.Valid.{IsValidJob};

mod desks;
mod plain;
mod records;
mod running;
mod totals;

use desks::{alone, open_desk};
use hive_model::{EventRecord, Job};
use job_build::build;
use plain::report_records;
use records::records;
use running::run;
use scheduler_core::Desk;
use std::alloc::{AllocError, Global};
use std::sync::Arc;
use std::time::Instant;
use std::{env, fs};
use totals::Totals;

fn main(rt: HostRuntime) -> anyhow::Result<()> {
    let mut words = env::args(&rt)?;
    let _program = words.next();
    match (words.next(), words.next(), words.next()) {
        (Some(_), Some(file), Some(records)) => report_file(&rt, file.as_str(), records.as_str()),
        (Some(file), Some(count), None) => time_file(&rt, file.as_str(), count.parse()?),
        _ => compare_file(&rt, "trigger.toml", 100),
    }
}

fn report_file(rt: &HostRuntime, file: &str, records: &str) -> anyhow::Result<()> {
    let options = fs::read(rt, file)?;
    match build(rt.alloc(), options.as_slice()) {
        Ok(job) => report_records(rt, job, fs::read(rt, records)?.as_slice()),
        Err(refusal) => Ok(println!(rt; "no job: {refusal:?}")?),
    }
}

fn time_file(rt: &HostRuntime, file: &str, count: u64) -> anyhow::Result<()> {
    let options = fs::read(rt, file)?;
    match build(rt.alloc(), options.as_slice()) {
        Ok(job) => time_both(rt, job, count),
        Err(refusal) => Ok(println!(rt; "no job: {refusal:?}")?),
    }
}

fn time_both(rt: &HostRuntime, job: Job, count: u64) -> anyhow::Result<()>
    requires { IsValidJob job }
{
    let job = Arc::new(rt.alloc(), job)?;
    time_shared(rt, &job, count)
}

fn time_shared(rt: &HostRuntime, job: &Arc<Job>, count: u64) -> anyhow::Result<()>
    requires { IsValidJob (arc_value job.now) }
{
    let mut desk = open_desk(rt.alloc(), Arc::try_clone(job)?)?;
    time_desk(rt, job, &mut desk, count)?;
    time_alone(rt, job, desk.admitted())
}

fn time_desk(rt: &HostRuntime, job: &Job, desk: &mut Desk, count: u64) -> anyhow::Result<()>
    requires valid { IsValidJob job.now }
    requires desk { IsDeskOf job.now desk.old }
{
    let mut waiting = records(rt.alloc(), job, count)?;
    time_run(rt, job, desk, &mut waiting)
}

fn time_run(
    rt: &HostRuntime,
    job: &Job,
    desk: &mut Desk,
    waiting: &mut Vec<EventRecord>,
) -> anyhow::Result<()>
    requires valid { IsValidJob job.now }
    requires desk { IsDeskOf job.now desk.old }
    requires waiting { AreFitting job.now waiting.old.items }
{
    let mut totals = Totals::new(false);
    let start = Instant::now(rt)?;
    run(rt.alloc(), job, desk, waiting, &mut totals)?;
    let nanos = start.elapsed(rt)?.as_nanos();
    print_desk(rt, &totals, nanos)
}

fn print_desk(rt: &HostRuntime, totals: &Totals, nanos: u128) -> anyhow::Result<()> {
    let (events, claims) = (totals.events, totals.claims);
    let of_event = part(nanos, events);
    let of_claim = part(nanos, claims);
    println!(rt; "desk: {events} events, {of_event} ns each; {claims} claims, {of_claim} ns each")?;
    Ok(())
}

fn time_alone(rt: &HostRuntime, job: &Job, records: &[EventRecord]) -> anyhow::Result<()>
    requires { IsValidJob job.now }
{
    let start = Instant::now(rt)?;
    evaluate(rt.alloc(), job, records)?;
    let nanos = start.elapsed(rt)?.as_nanos();
    let of_event = part(nanos, records.len() as u64);
    println!(rt; "alone: {} events, {of_event} ns each", records.len())?;
    Ok(())
}

fn evaluate(alloc: Global, job: &Job, records: &[EventRecord]) -> Result<(), AllocError>
    requires { IsValidJob job.now }
{
    for record in records {
        let _ended = alone(alloc, job, record)?;
    }
    Ok(())
}

fn part(nanos: u128, count: u64) -> u128 {
    nanos / u128::from(count).max(1)
}

fn compare_file(rt: &HostRuntime, file: &str, count: u64) -> anyhow::Result<()> {
    let options = fs::read(rt, file)?;
    match build(rt.alloc(), options.as_slice()) {
        Ok(job) => Ok(println!(rt; "{}", compared(rt.alloc(), job, count)?)?),
        Err(refusal) => Ok(println!(rt; "no job: {refusal:?}")?),
    }
}

// How many events there were, and how many results weren't the right ones.
fn compared(alloc: Global, job: Job, count: u64) -> Result<String, AllocError>
    requires { IsValidJob job }
{
    let job = Arc::new(alloc, job)?;
    compared_shared(alloc, &job, count)
}

fn compared_shared(alloc: Global, job: &Arc<Job>, count: u64) -> Result<String, AllocError>
    requires { IsValidJob (arc_value job.now) }
{
    let mut desk = open_desk(alloc, Arc::try_clone(job)?)?;
    compared_on(alloc, job, &mut desk, count)
}

fn compared_on(alloc: Global, job: &Job, desk: &mut Desk, count: u64) -> Result<String, AllocError>
    requires valid { IsValidJob job.now }
    requires desk { IsDeskOf job.now desk.old }
{
    let mut waiting = records(alloc, job, count)?;
    let mut totals = Totals::new(true);
    run(alloc, job, desk, &mut waiting, &mut totals)?;
    let (events, differences) = (totals.events, totals.differences);
    format!(in alloc; "{events} events, {differences} differences")
}
