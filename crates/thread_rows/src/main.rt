//! Rows of runs with threads: what is printed is the same whatever the schedule. `stdout` holds what docs/FORMATS.md
//! and docs/PROCESSING.md say.
//!
//! Each line of the input is a row with `|` between its parts, and the first part says which:
//!
//! - `run`: the words of a call, its options file of data/, the number of its records, which are drawn by lot, and how
//!   many times it is made;
//! - `hold`: the words, the file and the number of records; how many executions must have begun before one of them
//!   goes on, and how often one lets other threads run before it gives up;
//! - `bulk`: the words of a call of `bulk`, the words that write its records, and how many times it is made;
//! - `journal`: what the row shows, an options file, records and the number of slots, and the entries of a journal,
//!   with `;` between;
//! - `texts`: two texts.
//!
//! A call's status and text must be those that the evaluation of each record by itself gives. A gate counts what is
//! executed: each algorithm once where it runs alone, and no instance or unit by two executions at a time. The journal
//! must keep the laws of `law`, which are looked at with plain tables: nothing in them is asked of the scheduler.
//!
//! Executions that are held show that they overlap: they are performed outside of the lock, and not by one thread
//! alone. One more than there are workers may go on at a time, on the thread that reads and writes.
//!
//! Rows of journals that are written by hand, of texts, and of executions that can't overlap show that what is looked
//! for would be found.
#![tactic(auto)]

mod alone;
mod call;
mod case;
mod checks;
mod difference;
mod hold;
mod in_flight;
mod law;
mod numbers;
mod records;
mod rows;
mod sample;
mod tables;
mod verdict;
mod watch;

use case::{Bulk, Call, Held, Journal, Row, row_of};
use rows::{generated, hold_text, journal_text, run_text, texts_text};
use sample::{Origin, Sample};
use std::fs;
use std::rt::Runtime;
use std::sync::Wait;
use std::thread::Threads;

fn main(rt: HostRuntime) -> anyhow::Result<()> {
    let mut count: u64 = 0;
    for line in rt.lines(rt.alloc()) {
        let line = line?;
        print_row(&rt, line.as_str())?;
        count = count.saturating_add(1);
    }
    println!(rt; "{count} rows")?;
    Ok(())
}

fn print_row<R: Runtime + AllocGlobal + Threads + Wait + Sync>(
    rt: &R,
    line: &str,
) -> anyhow::Result<()> {
    match row_of(rt.alloc(), line)? {
        Some(row) => {
            let text = row_text(rt, row)?;
            println!(rt; "{text}")?;
        }
        None => println!(rt; "no row: {line}")?,
    }
    Ok(())
}

fn row_text<R: Runtime + AllocGlobal + Threads + Wait + Sync>(
    rt: &R,
    row: Row<'_>,
) -> anyhow::Result<String> {
    match row {
        Row::Run(call, times) => run(rt, &call, times),
        Row::Hold(call, held) => hold_all(rt, &call, held),
        Row::Bulk(bulk, times) => run_bulk(rt, &bulk, times),
        Row::Journal(journal) => check_journal(rt, &journal),
        Row::Texts(due, got) => Ok(texts_text(rt.alloc(), due, got)?),
    }
}

fn run<R: Runtime + AllocGlobal + Threads + Wait + Sync>(
    rt: &R,
    call: &Call<'_>,
    times: u64,
) -> anyhow::Result<String> {
    let sample = drawn(rt, call)?;
    Ok(run_text(rt, rt.alloc(), &sample, call.words, times)?)
}

fn hold_all<R: Runtime + AllocGlobal + Threads + Wait + Sync>(
    rt: &R,
    call: &Call<'_>,
    held: Held,
) -> anyhow::Result<String> {
    let sample = drawn(rt, call)?;
    Ok(hold_text(rt, rt.alloc(), &sample, call.words, held)?)
}

fn run_bulk<R: Runtime + AllocGlobal + Threads + Wait + Sync>(
    rt: &R,
    bulk: &Bulk<'_>,
    times: u64,
) -> anyhow::Result<String> {
    let sample = generated(rt, rt.alloc(), bulk.records)?;
    Ok(run_text(rt, rt.alloc(), &sample, bulk.words, times)?)
}

fn check_journal<R: Runtime + AllocGlobal>(
    rt: &R,
    journal: &Journal<'_>,
) -> anyhow::Result<String> {
    let options = fs::read(rt, journal.file)?;
    journal_text(rt.alloc(), options, journal)
}

// The job of the call's file with records that are drawn by lot.
fn drawn<R: Runtime + AllocGlobal>(rt: &R, call: &Call<'_>) -> anyhow::Result<Sample> {
    let options = fs::read(rt, call.file)?;
    Sample::new(rt.alloc(), options, Origin::Drawn(call.records), false)
}
