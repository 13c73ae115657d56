//! Times the tables of decisions and of states, for `bench/tables`.
//!
//! With an options file and a number it lets each algorithm of so many events end as accepted, in the order in which
//! they can run, and prints what a settled algorithm takes in both tables; then what it takes to evaluate the decision
//! of every sequence anew for it. Without words it says which it takes.
#![tactic(auto)]

ghost use Rattle.hive_model.specs.Valid.{IsValidJob};

mod anew;
mod event;

use anew::evaluate;
use event::Event;
use hive_model::Job;
use job_build::build;
use std::time::Instant;
use std::{env, fs};

fn main(rt: HostRuntime) -> anyhow::Result<()> {
    let mut words = env::args(&rt)?;
    let _program = words.next();
    let file = words.next();
    let count = words.next();
    match (file, count) {
        (Some(file), Some(count)) => time_file(&rt, file.as_str(), count.parse()?),
        (None, _) | (Some(_), None) => {
            println!(rt; "words: FILE COUNT")?;
            Ok(())
        }
    }
}

fn time_file(rt: &HostRuntime, file: &str, count: u32) -> anyhow::Result<()> {
    let options = fs::read(rt, file)?;
    match build(rt.alloc(), options.as_slice()) {
        Ok(job) => time_both(rt, &job, count),
        Err(refusal) => {
            println!(rt; "no job: {refusal:?}")?;
            Ok(())
        }
    }
}

fn time_both(rt: &HostRuntime, job: &Job, count: u32) -> anyhow::Result<()>
    requires { IsValidJob job.now }
{
    let order = time_tables(rt, job, count)?;
    time_anew(rt, job, order.as_slice(), count)
}

// Prints what a settled algorithm takes in both tables, and gives the order of one event.
fn time_tables(rt: &HostRuntime, job: &Job, count: u32) -> anyhow::Result<Vec<u16>>
    requires { IsValidJob job.now }
{
    let mut event = Event::new(rt.alloc(), job)?;
    let mut order = Vec::new(rt.alloc());
    event.run(job, &mut order)?;
    let start = Instant::now(rt)?;
    for _event in 0..count {
        order.clear();
        event.run(job, &mut order)?;
    }
    let nanos = start.elapsed(rt)?.as_nanos();
    print_times(rt, "tables", order.len(), count, nanos)?;
    Ok(order)
}

fn time_anew(rt: &HostRuntime, job: &Job, order: &[u16], count: u32) -> anyhow::Result<()> {
    let mut outcomes = vec![in rt.alloc(); None; job.algorithms().len()]?;
    let mut decided: u64 = 0;
    let start = Instant::now(rt)?;
    for _event in 0..count {
        decided = decided.max(evaluate(job, &mut outcomes, order));
    }
    let nanos = start.elapsed(rt)?.as_nanos();
    print_times(rt, "anew", order.len(), count, nanos)?;
    println!(rt; "{decided} decisions an event")?;
    Ok(())
}

fn print_times(
    rt: &HostRuntime,
    name: &str,
    settled: usize,
    count: u32,
    nanos: u128,
) -> anyhow::Result<()> {
    let all = (settled as u128).saturating_mul(u128::from(count)).max(1);
    println!(rt; "{name}: {settled} algorithms, {} ns each", nanos / all)?;
    Ok(())
}
