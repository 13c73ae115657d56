//! Times the printing and the reading of journals, for `bench/timeline`.
//!
//! With a number it makes a journal of so many entries, prints it, reads the text, and prints what each took. Without
//! words it says which it takes.
#![tactic(auto)]

mod journal;

use journal::journal;
use std::env;
use std::time::Instant;
use timeline::{parse, print};

fn main(rt: HostRuntime) -> anyhow::Result<()> {
    let mut words = env::args(&rt)?;
    let _program = words.next();
    let Some(count) = words.next() else {
        println!(rt; "words: COUNT")?;
        return Ok(());
    };
    let count: u64 = count.parse()?;
    time_both(&rt, count)
}

fn time_both(rt: &HostRuntime, count: u64) -> anyhow::Result<()> {
    let entries = journal(rt.alloc(), count)?;
    let start = Instant::now(rt)?;
    let text = print(rt.alloc(), entries.as_slice())?;
    let nanos = start.elapsed(rt)?.as_nanos();
    println!(rt; "printed {count} entries, {} bytes: {nanos} ns", text.len())?;
    let start = Instant::now(rt)?;
    let read = parse(rt.alloc(), text.as_slice())?;
    let nanos = start.elapsed(rt)?.as_nanos();
    println!(rt; "read {} entries: {nanos} ns", read.as_slice().len())?;
    let same = read.as_slice() == entries.as_slice();
    println!(rt; "the same: {same}")?;
    Ok(())
}
