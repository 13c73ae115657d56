//! Rows of the parts of the scheduler: each line of the input begins with the name of a part, and what is printed for
//! it is what the calls of that part gave. `stdout` holds what docs/PROCESSING.md and docs/FORMATS.md say.
//!
//! What the rest of a line says is told at the head of the part's module. Where a part takes a job, the rest begins
//! with its options, a file of data/, and `|`.
#![tactic(auto)]

ghost use Rattle.hive_model.specs.Valid.{IsValidJob};

mod nodes;
mod numbers;
mod pools;
mod slots;
mod states;
mod times;
mod words;

use hive_model::Job;
use job_build::build;
use nodes::nodes_text;
use numbers::numbers_text;
use pools::pools_text;
use slots::slots_text;
use states::states_text;
use std::alloc::{AllocError, Global};
use std::fs;
use times::timeline_text;

fn main(rt: HostRuntime) -> anyhow::Result<()> {
    let mut count: u64 = 0;
    for line in rt.lines(rt.alloc()) {
        let line = line?;
        let text = row(&rt, line.as_str())?;
        println!(rt; "{text}")?;
        count = count.saturating_add(1);
    }
    println!(rt; "{count} rows")?;
    Ok(())
}

// What a line comes to.
fn row(rt: &HostRuntime, line: &str) -> anyhow::Result<String> {
    let (part, rest) = line.split_once(' ').unwrap_or((line, ""));
    let text = match part {
        "timeline" => timeline_text(rt.alloc(), rest)?,
        "numbers" => numbers_text(rt.alloc(), rest)?,
        "slots" => slots_text(rt.alloc(), rest)?,
        _ => return job_row(rt, part, rest),
    };
    Ok(text)
}

// What the row of a part comes to that takes a job.
fn job_row(rt: &HostRuntime, part: &str, rest: &str) -> anyhow::Result<String> {
    let (file, calls) = rest.split_once('|').unwrap_or((rest, ""));
    let options = fs::read(rt, file.trim())?;
    let text = match build(rt.alloc(), options.as_slice()) {
        Ok(job) => calls_text(rt.alloc(), part, &job, calls)?,
        Err(refusal) => format!(in rt.alloc(); "no job: {refusal:?}")?,
    };
    Ok(text)
}

// What the calls come to, or that there is no such part.
fn calls_text(alloc: Global, part: &str, job: &Job, calls: &str) -> Result<String, AllocError>
    requires { IsValidJob job.now }
{
    match part {
        "pools" => pools_text(alloc, job, calls),
        "states" => states_text(alloc, job, calls),
        "nodes" => nodes_text(alloc, job, calls),
        _ => format!(in alloc; "no row: {part}"),
    }
}
