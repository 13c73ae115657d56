//! Times the generating of records, for `bench/generator`.
//!
//! With a start and a number of events it generates them as a whole and then piece by piece, and prints what
//! each took. Without words it says which it takes.
#![tactic(auto)]

ghost use Rattle.std.specs.Prelude.{◌≤◌};
ghost use Rattle.text_model.specs.declared.limits.TheConstants.{MOST_EVENTS};

mod pieces;

use pieces::bytes_in_pieces;
use std::env;
use std::time::Instant;
use text_model::MOST_EVENTS;

fn main(rt: HostRuntime) -> anyhow::Result<()> {
    let mut words = env::args(&rt)?;
    let _program = words.next();
    let Some(start) = words.next() else {
        println!(rt; "words: START EVENTS")?;
        return Ok(());
    };
    let Some(events) = words.next() else {
        println!(rt; "words: START EVENTS")?;
        return Ok(());
    };
    let start: u64 = start.parse()?;
    let events: u32 = events.parse()?;
    let events = events.min(MOST_EVENTS);
    time_whole(&rt, start, events)?;
    time_pieces(&rt, start, events)
}

fn time_whole(rt: &HostRuntime, start: u64, events: u32) -> anyhow::Result<()>
    requires { events ≤ MOST_EVENTS }
{
    let begun = Instant::now(rt)?;
    let text = hive_gen::records(rt.alloc(), start, events)?;
    let nanos = begun.elapsed(rt)?.as_nanos();
    let bytes = text.len();
    println!(rt; "{events} events as a whole: {bytes} bytes, {nanos} ns")?;
    Ok(())
}

fn time_pieces(rt: &HostRuntime, start: u64, events: u32) -> anyhow::Result<()>
    requires { events ≤ MOST_EVENTS }
{
    let begun = Instant::now(rt)?;
    let bytes = bytes_in_pieces(rt.alloc(), start, events)?;
    let nanos = begun.elapsed(rt)?.as_nanos();
    println!(rt; "{events} events in pieces: {bytes} bytes, {nanos} ns")?;
    Ok(())
}
