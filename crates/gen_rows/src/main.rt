//! Rows of generated inputs: each line of the input asks for one, and what is printed is the text, or what it
//! comes to. `stdout` holds what docs/FORMATS.md says; its numbers were computed by another program, from the
//! rule alone.
//!
//! `options` prints the options, and `job` how many algorithms, sequences and handles their job has. With a
//! start and a number of events behind it, `text` prints the records; `size` their number of bytes, the
//! digest and the last line of them, and into how many pieces they were generated; `sink` what a sink got of
//! them that takes at most 1,000 bytes in one call, and one whose third call fails; and `run` what a run of
//! the job over them writes.
#![tactic(auto)]

ghost use Rattle.std.specs.Prelude.{◌≤◌};
ghost use Rattle.text_model.specs.declared.limits.TheConstants.{MOST_EVENTS};

mod case;
mod job;
mod pieces;
mod run;
mod sinks;

use case::{Case, Shown, case_of};
use hive_gen::{options, records};
use job::job_line;
use pieces::size_line;
use run::run_text;
use sinks::sink_line;
use std::alloc::{AllocError, Global};

fn main(rt: HostRuntime) -> anyhow::Result<()> {
    let mut count: u64 = 0;
    for line in rt.lines(rt.alloc()) {
        let line = line?;
        let text = row(rt.alloc(), line.as_str())?;
        print!(rt; "{text}")?;
        count = count.saturating_add(1);
    }
    println!(rt; "{count} rows")?;
    Ok(())
}

// What a line comes to.
fn row(alloc: Global, line: &str) -> anyhow::Result<String> {
    let text = match line.trim() {
        "options" => options_text(alloc)?,
        "job" => job_line(alloc)?,
        words => case_text(alloc, words)?,
    };
    Ok(text)
}

fn options_text(alloc: Global) -> Result<String, AllocError> {
    let text = options(alloc)?;
    String::from_utf8_lossy(alloc, text.as_slice())
}

fn case_text(alloc: Global, words: &str) -> Result<String, AllocError> {
    match case_of(alloc, words)? {
        Some(case) => text_of(alloc, case),
        None => format!(in alloc; "no row: {words}\n"),
    }
}

fn text_of(alloc: Global, case: Case) -> Result<String, AllocError>
    requires { case.events ≤ MOST_EVENTS }
{
    let text = records(alloc, case.start, case.events)?;
    match case.shown {
        Shown::Text => String::from_utf8_lossy(alloc, text.as_slice()),
        Shown::Size => size_line(alloc, case, text.as_slice()),
        Shown::Sink => sink_line(alloc, case),
        Shown::Run => run_text(alloc, text),
    }
}
