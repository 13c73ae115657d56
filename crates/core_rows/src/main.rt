//! Rows of the scheduler: each line of the input is a job, some records and calls of a desk, and what is
//! printed for it is what the calls answered. `stdout` holds what docs/PROCESSING.md and docs/FORMATS.md say.
//!
//! A row has five parts with `|` between: what it shows; the job's options, a file of data/; the number of
//! slots; records, with `;` between, which `records` tells; and calls with `;` between, which `calls` tells.
//!
//! A row of four parts is what it shows, a start, a number of jobs and a number of events for each: `trial`
//! tells it.
#![tactic(auto)]

mod calls;
mod case;
mod cells;
mod counts;
mod desks;
mod drawn;
mod fitting;
mod hand;
mod held;
mod made;
mod numbers;
mod records;
mod row;
mod shown;
mod steps;
mod trial;
mod words;

use case::{Case, case_of, trials_of};
use job_build::build;
use row::row_text;
use std::fs;
use trial::trials_text;

fn main(rt: HostRuntime) -> anyhow::Result<()> {
    let mut count: u64 = 0;
    for line in rt.lines(rt.alloc()) {
        let line = line?;
        print_row(&rt, line.as_str())?;
        count = count.saturating_add(1);
    }
    println!(rt; "{count} rows")?;
    Ok(())
}

fn print_row(rt: &HostRuntime, line: &str) -> anyhow::Result<()> {
    match case_of(rt.alloc(), line)? {
        Some(case) => print_case(rt, &case),
        None => print_trials(rt, line),
    }
}

fn print_trials(rt: &HostRuntime, line: &str) -> anyhow::Result<()> {
    match trials_of(rt.alloc(), line)? {
        Some(trials) => {
            let text = trials_text(rt.alloc(), &trials)?;
            println!(rt; "{}: {text}", trials.name)?;
        }
        None => println!(rt; "no row: {line}")?,
    }
    Ok(())
}

fn print_case(rt: &HostRuntime, case: &Case<'_>) -> anyhow::Result<()> {
    let options = fs::read(rt, case.file)?;
    let text = match build(rt.alloc(), options.as_slice()) {
        Ok(job) => row_text(rt.alloc(), job, case)?,
        Err(refusal) => format!(in rt.alloc(); "no job: {refusal:?}")?,
    };
    println!(rt; "{}: {text}", case.name)?;
    Ok(())
}
