//! A call over files and streams in memory.
ghost use Rattle.std.specs.Prelude.{◌<◌};

use crate::case::Case;
use hive_edge::{MemShelf, MemSink, MemSource};
use hive_model::Text;
use hive_top::{hive, hive_plain};
use hive_workers::NoGate;
use std::alloc::{AllocError, Global};
use std::sync::Wait;
use std::thread::Threads;

// The most bytes that a row's call writes.
const ROOM: usize = 65_536;

/// What a call may reach.
#[derive(Drop)]
struct Outside {
    shelf: MemShelf,
    source: MemSource,
    sink: MemSink,
    trace: MemSink,
}

/// What a call came to.
#[derive(Debug, Drop)]
pub(crate) struct Shown {
    /// The exit status.
    pub(crate) status: u8,
    /// What the sink got.
    pub(crate) text: String,
    /// What the trace got.
    pub(crate) trace: String,
}

/// What the case's call comes to, with workers or on this thread.
pub(crate) fn run_case<R: Threads + Wait + Sync>(
    rt: &R,
    alloc: Global,
    case: &Case<'_>,
    with_workers: bool,
    options: Vec<u8>,
) -> anyhow::Result<Shown>
    requires piece { 0 < case.now.piece }
    requires takes { 0 < case.now.takes }
{
    let words: Vec<&str> = case.words.split_whitespace().collect(alloc)?;
    let mut outside = make_outside(alloc, case, options)?;
    let status = status_of(rt, alloc, words.as_slice(), with_workers, &mut outside);
    let text = String::from_utf8_lossy(alloc, outside.sink.got())?;
    let trace = String::from_utf8_lossy(alloc, outside.trace.got())?;
    Ok(Shown {
        status,
        text,
        trace,
    })
}

fn status_of<R: Threads + Wait + Sync>(
    rt: &R,
    alloc: Global,
    words: &[&str],
    with_workers: bool,
    outside: &mut Outside,
) -> u8 {
    let shelf = &mut outside.shelf;
    let source = &mut outside.source;
    let sink = &mut outside.sink;
    let trace = &mut outside.trace;
    let ran = if with_workers {
        hive(rt, alloc, words, shelf, source, sink, trace, &NoGate)
    } else {
        hive_plain(alloc, words, shelf, source, sink, trace)
    };
    ran.status.code()
}

fn make_outside(alloc: Global, case: &Case<'_>, options: Vec<u8>) -> Result<Outside, AllocError>
    requires piece { 0 < case.now.piece }
    requires takes { 0 < case.now.takes }
{
    let shelf = shelf_of(alloc, case, options)?;
    let source = source_of(alloc, case)?;
    let sink = MemSink::new(alloc, case.takes, ROOM, case.sink.clone()?)?;
    let trace = MemSink::new(alloc, case.takes, ROOM, case.trace.clone()?)?;
    Ok(Outside {
        shelf,
        source,
        sink,
        trace,
    })
}

fn shelf_of(alloc: Global, case: &Case<'_>, options: Vec<u8>) -> Result<MemShelf, AllocError> {
    let files = Vec::from_array(alloc, [(Text::from_str(alloc, "job")?, options)])?;
    Ok(MemShelf::new(files, case.shelf.clone()?))
}

fn source_of(alloc: Global, case: &Case<'_>) -> Result<MemSource, AllocError>
    requires { 0 < case.now.piece }
{
    let bytes = Vec::from_slice(alloc, case.records.as_bytes())?;
    Ok(MemSource::new(bytes, case.piece, case.source.clone()?))
}
