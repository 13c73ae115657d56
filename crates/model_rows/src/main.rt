//! Rows of whole events: each line of the input is a small job with one record, and what is printed for it is the
//! event's report on one line. `stdout` holds what the rules say (docs/PROCESSING.md).
//!
//! A row is the record's one cell, then the sequences, with `;` before each; the first sequence is the top. The cell
//! is a number, or `?` where it is absent; its handle is `n`. A sequence is its flags (`or`, `strict`, `seq`, `invert`,
//! `ignore`, `cut`) and, after `:`, its members with spaces between: `s` and a number is a sequence, `a` and a
//! number an algorithm that was made before, and anything else makes one more algorithm of parts with commas between:
//! `i=NAME` an input, `o=TEXT` an output, `f=TEXT` the filter. The outputs are named `p` and their handle's number.
#![tactic(auto)]

mod algorithm;
mod calls;
mod draft;
mod sequence;

ghost use Rattle.hive_model.specs.Runnable.{IsRunnable};

use draft::draft_of;
use hive_model::{EventRecord, Job};
use report_text::{names_of, push_report};
use serial_meaning::closure;
use std::alloc::{AllocError, Global};

fn main(rt: HostRuntime) -> anyhow::Result<()> {
    let mut count: u64 = 0;
    for line in rt.lines(rt.alloc()) {
        let line = line?;
        if print_row(&rt, line.as_str())? {
            count = count.saturating_add(1);
        }
    }
    calls::print_calls(&rt)?;
    println!(rt; "{count} rows")?;
    Ok(())
}

// Prints what a line comes to, and says whether it is a row.
fn print_row(rt: &HostRuntime, line: &str) -> anyhow::Result<bool> {
    match draft_of(rt.alloc(), line) {
        Ok(Some((job, record))) => {
            let text = report_of(rt.alloc(), &job, &record)?;
            println!(rt; "{text}")?;
            Ok(true)
        }
        Ok(None) => {
            println!(rt; "no row: {line}")?;
            Ok(false)
        }
        Err(error) => {
            println!(rt; "no row: {line}: {error}")?;
            Ok(false)
        }
    }
}

// The report of the event, on one line.
fn report_of(alloc: Global, job: &Job, record: &EventRecord) -> Result<String, AllocError>
    requires { IsRunnable job.now }
{
    let result = closure(alloc, job, record)?;
    let names = names_of(alloc, job)?;
    let mut out = Vec::new(alloc);
    push_report(&mut out, job, names.as_slice(), &result)?;
    on_one_line(alloc, out.as_slice())
}

fn on_one_line(alloc: Global, report: &[u8]) -> Result<String, AllocError> {
    let text = String::from_utf8_lossy(alloc, report)?;
    text.trim_end().replace(alloc, "\n", " / ")
}
