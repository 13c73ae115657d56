//! Rows of whole runs over files and streams in memory: each line of the input is the words of a call, its options
//! file, its records, and the calls of the outside that fail; what is printed is the status, what the sink got and, where that
//! is something, what the trace got. `stdout` holds what docs/FORMATS.md says.
//!
//! Each call is made on one thread and then with the workers that its words ask for. What comes of the second is printed
//! only where it differs. With workers their journal is their own, so it is compared where the words ask for none.
//!
//! A row has nine parts with `|` between: the words; what the shelf has as `job`, a file of data/ or so many empty
//! lines; the records, with `\n` for a line feed; how many bytes the source gives in one call; how many the sink and the
//! trace take in one call; and the numbers of the calls of shelf, source, sink and trace that fail.
#![tactic(auto)]

ghost use Rattle.std.specs.Prelude.{◌<◌};

mod case;
mod edge;
mod outside;
mod real;
mod run;

use case::{Case, case_of};
use run::{Shown, run_case};
use std::fs;
use std::rt::Runtime;
use std::sync::Wait;
use std::thread::Threads;

fn main(rt: HostRuntime) -> anyhow::Result<()> {
    let mut count: u64 = 0;
    for line in rt.lines(rt.alloc()) {
        let line = line?;
        if print_row(&rt, line.as_str())? {
            count = count.saturating_add(1);
        } else {
            println!(rt; "no row: {line}")?;
        }
    }
    edge::print_calls(&rt)?;
    println!(rt; "{count} rows")?;
    Ok(())
}

// Prints what a line comes to, and says whether it is a row.
fn print_row<R: Runtime + AllocGlobal + Threads + Wait + Sync>(
    rt: &R,
    line: &str,
) -> anyhow::Result<bool> {
    match case_of(rt.alloc(), line)? {
        Some(case) => {
            print_case(rt, &case)?;
            Ok(true)
        }
        None => print_calls(rt, line),
    }
}

fn print_calls<R: Runtime + AllocGlobal>(rt: &R, line: &str) -> anyhow::Result<bool> {
    let text = match outside::calls_of(rt.alloc(), line)? {
        Some(text) => Some(text),
        None => real::calls_of(rt, rt.alloc(), line)?,
    };
    match text {
        Some(text) => {
            println!(rt; "{text}")?;
            Ok(true)
        }
        None => Ok(false),
    }
}

fn print_case<R: Runtime + AllocGlobal + Threads + Wait + Sync>(
    rt: &R,
    case: &Case<'_>,
) -> anyhow::Result<()>
    requires piece { 0 < case.now.piece }
    requires takes { 0 < case.now.takes }
{
    let options = options_of(rt, case.file)?;
    let beside = run_case(rt, rt.alloc(), case, true, options.clone()?)?;
    let plain = run_case(rt, rt.alloc(), case, false, options)?;
    print_shown(rt, "", &plain)?;
    if !is_same(case.words, &plain, &beside) {
        print_shown(rt, "with workers ", &beside)?;
    }
    Ok(())
}

fn print_shown<R: Runtime + AllocGlobal>(rt: &R, way: &str, it: &Shown) -> anyhow::Result<()> {
    if it.trace.is_empty() {
        println!(rt; "{way}{} {:?}", it.status, it.text)?;
    } else {
        println!(rt; "{way}{} {:?} trace {:?}", it.status, it.text, it.trace)?;
    }
    Ok(())
}

// Whether both came to the same.
fn is_same(words: &str, plain: &Shown, beside: &Shown) -> bool {
    if plain.status != beside.status {
        return false;
    }
    if plain.text.as_str() != beside.text.as_str() {
        return false;
    }
    !words.contains("--workers 0") || plain.trace.as_str() == beside.trace.as_str()
}

// The options of a row: a file of data/, or so many empty lines.
fn options_of<R: Runtime + AllocGlobal>(rt: &R, file: &str) -> anyhow::Result<Vec<u8>> {
    match file.parse::<usize>() {
        Ok(lines) => Ok(vec![in rt.alloc(); b'\n'; lines]?),
        Err(_) => Ok(fs::read(rt, file)?),
    }
}
