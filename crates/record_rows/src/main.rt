//! Rows of records: each line of the input is a records text with the raw handles of its job, and what is printed for
//! it is how many records it has, the first two and the last, and how it ends. `stdout` holds what
//! docs/FORMATS.md says.
//!
//! A row has four parts with `|` between: how many algorithms the job has; its raw handles, each a name and a kind
//! with `:` between; sizes of pieces, 0 for the whole text at once; and the text, with `\n`, `\r`, `\t` and `\d` for
//! a line feed, a carriage return, a tab and the byte 127. `<N:TEXT>` stands for N times TEXT, and around that
//! `{N:TEXT}`. The text is fed in pieces of each size, and after each piece every answer is taken, or one, or none;
//! where the records or the ending are others than before, a line says so.
#![tactic(auto)]

mod case;
mod job;
mod outcome;
mod reading;
mod repeated;

ghost use Rattle.std.specs.Prelude.{◌<◌};

use case::{Case, case_of};
use job::job_of;
use outcome::Outcome;
use reading::{read, whole_size};
use std::sync::Arc;

fn main(rt: HostRuntime) -> anyhow::Result<()> {
    let mut count: u64 = 0;
    for line in rt.lines(rt.alloc()) {
        let line = line?;
        print_row(&rt, line.as_str())?;
        count = count.saturating_add(1);
    }
    println!(rt; "{count} rows")?;
    Ok(())
}

fn print_row(rt: &HostRuntime, line: &str) -> anyhow::Result<()> {
    match case_of(rt.alloc(), line)? {
        Some(case) => print_case(rt, &case),
        None => Ok(println!(rt; "no row: {line}")?),
    }
}

fn print_case(rt: &HostRuntime, case: &Case<'_>) -> anyhow::Result<()> {
    let job = Arc::new(rt.alloc(), job_of(rt.alloc(), case.algorithms, case.raws)?)?;
    let text = case.text.as_str().as_bytes();
    let whole = read(
        rt.alloc(),
        Arc::try_clone(&job)?,
        text,
        whole_size(text),
        u64::MAX,
    )?;
    let shown = whole.shown(rt.alloc())?;
    println!(rt; "{shown}")?;
    for size in &case.sizes {
        let size = if *size == 0 { whole_size(text) } else { *size };
        for taken in [u64::MAX, 1, 0] {
            let outcome = read(rt.alloc(), Arc::try_clone(&job)?, text, size, taken)?;
            print_difference(rt, &whole, &outcome, size)?;
        }
    }
    Ok(())
}

fn print_difference(
    rt: &HostRuntime,
    whole: &Outcome,
    outcome: &Outcome,
    size: usize,
) -> anyhow::Result<()> {
    if !outcome.is_same(whole) {
        let shown = outcome.shown(rt.alloc())?;
        println!(rt; "in pieces of {size}: {shown}")?;
    }
    Ok(())
}
