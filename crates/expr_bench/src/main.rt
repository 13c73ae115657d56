//! Times the reading of expressions and the performing of claims. `bench/expressions` builds and runs it.
//!
//! With a count it parses and performs so often, and prints nanoseconds for each node and for each element
//! of a list. Without one it says that it takes a count.
#![tactic(auto)]

mod claims;
mod texts;

use claims::perform_often;
use std::alloc::Global;
use std::env;
use std::marker::Brand;
use std::sync::ledger::Blank;
use std::time::Instant;
use texts::{HALF, LIST_TEXT, MOST, WALKS, number_of, parse_often, sum_text};

/// How many nodes the longest sum has.
const NODES: u64 = 256;

/// How many numbers the list holds.
const ELEMENTS: u64 = 1024;

fn main(rt: HostRuntime) -> anyhow::Result<()> {
    let mut words = env::args(&rt)?;
    let _program = words.next();
    match words.next() {
        Some(word) => measure(&rt, word.parse()?),
        None => {
            println!(rt; "words: COUNT")?;
            Ok(())
        }
    }
}

fn perform(alloc: Global, text: &str, count: u32) -> anyhow::Result<()> {
    let value = number_of(alloc, text)?;
    perform_often::<Brand>(alloc, value, &[1; 1024], count, Blank::new(1))?;
    Ok(())
}

/// Nanoseconds a node to read a sum with so many operands added.
fn time_parse(rt: &HostRuntime, added: u8, count: u32) -> anyhow::Result<u128> {
    let text = sum_text(rt.alloc(), added)?;
    let start = Instant::now(rt)?;
    let nodes = parse_often(rt.alloc(), text.as_str(), count)?;
    Ok(start.elapsed(rt)?.as_nanos() / u128::from(nodes.max(1)))
}

/// Picoseconds for each of `parts` parts of performing an expression.
fn time_perform(rt: &HostRuntime, text: &str, count: u32, parts: u64) -> anyhow::Result<u128> {
    let start = Instant::now(rt)?;
    perform(rt.alloc(), text, count)?;
    let times = u128::from(count.max(1)) * u128::from(parts.max(1));
    Ok(start.elapsed(rt)?.as_nanos() * 1000 / times)
}

fn measure(rt: &HostRuntime, count: u32) -> anyhow::Result<()> {
    let whole = time_parse(rt, MOST, count)?;
    println!(rt; "parse of 1,024 bytes: {whole} ns a node")?;
    let half = time_parse(rt, HALF, count)?;
    println!(rt; "parse of 512 bytes: {half} ns a node")?;
    let text = sum_text(rt.alloc(), MOST)?;
    let node = time_perform(rt, text.as_str(), count, NODES)?;
    println!(rt;
        "perform of 256 nodes: {}.{} ns a node",
        node / 1000,
        node % 1000 / 100
    )?;
    let element = time_perform(rt, LIST_TEXT, count, WALKS * ELEMENTS)?;
    println!(rt;
        "perform over lists of 1,024: {}.{} ns an element",
        element / 1000,
        element % 1000 / 100
    )?;
    Ok(())
}
