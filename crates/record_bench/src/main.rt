//! Times the reading of records alone, for `bench/records`.
//!
//! With a file of records and a size it feeds the file in pieces of that size, takes each record and lets it go, and
//! prints what that took, beside a plain loop that cuts the same bytes at line feeds, commas and spaces and adds the
//! numbers up. The raw handles are `hits` and `calo`, lists, and `run`, a number. Without words it says which it takes.
#![tactic(auto)]

mod plain;
mod reading;

ghost use Rattle.std.specs.Prelude.{◌<◌};

use plain::add_up;
use reading::{job, read};
use std::time::Instant;
use std::{env, fs};

fn main(rt: HostRuntime) -> anyhow::Result<()> {
    let mut words = env::args(&rt)?;
    let _program = words.next();
    let Some(file) = words.next() else {
        println!(rt; "words: FILE SIZE")?;
        return Ok(());
    };
    let Some(size) = words.next() else {
        println!(rt; "words: FILE SIZE")?;
        return Ok(());
    };
    let text = fs::read(&rt, file.as_str())?;
    let size: usize = size.parse()?;
    time_reading(&rt, text.as_slice(), size.max(1))?;
    time_adding(&rt, text.as_slice())
}

fn time_reading(rt: &HostRuntime, text: &[u8], size: usize) -> anyhow::Result<()>
    requires { 0 < size }
{
    let job = job(rt.alloc())?;
    let start = Instant::now(rt)?;
    let records = read(rt.alloc(), job, text, size)?;
    let nanos = start.elapsed(rt)?.as_nanos();
    println!(rt; "read in pieces of {size}: {records} records, {nanos} ns")?;
    Ok(())
}

fn time_adding(rt: &HostRuntime, text: &[u8]) -> anyhow::Result<()> {
    let start = Instant::now(rt)?;
    let sum = add_up(text);
    let nanos = start.elapsed(rt)?.as_nanos();
    println!(rt; "cut and added up: {sum}, {nanos} ns")?;
    Ok(())
}
