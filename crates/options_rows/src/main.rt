//! Rows of options texts: each line of the input is a text, and what is printed is its raw options, with the defaults
//! filled in, or the first refusal of its shape. `stdout` holds what docs/FORMATS.md says.
//!
//! `\n` in a row is a line feed. A row may have four parts with ` | ` between: what the text begins with, a number, a
//! piece that comes so many times, and what it ends with.
#![tactic(auto)]

mod refused;
mod shown;
mod text;

use job_options::read;
use refused::refused;
use shown::shown;
use std::alloc::{AllocError, Global};
use text::text_of;

fn main(rt: HostRuntime) -> anyhow::Result<()> {
    let mut count: u64 = 0;
    for line in rt.lines(rt.alloc()) {
        let line = line?;
        let answer = row(rt.alloc(), line.as_str())?;
        println!(rt; "{answer}")?;
        count = count.saturating_add(1);
    }
    println!(rt; "{count} rows")?;
    Ok(())
}

// What the text of a line says.
fn row(alloc: Global, line: &str) -> Result<String, AllocError> {
    let Some(text) = text_of(alloc, line)? else {
        return format!(in alloc; "no row: {line}");
    };
    match read(alloc, text.as_bytes()) {
        Ok(options) => shown(alloc, &options),
        Err(refusal) => refused(alloc, &refusal),
    }
}
