//! A call over files and streams in memory.
use hive_edge::{MemShelf, MemSink, MemSource};
use hive_model::{Entry, Many, Text};
use hive_top::{Ran, Status, hive};
use hive_workers::Gate;
use std::alloc::{AllocError, Global};
use std::sync::Wait;
use std::thread::Threads;

// The most bytes that a row's call writes.
const ROOM: usize = 4_194_304;

// How many bytes the source gives and the sink takes in one call.
const PIECE: usize = 1_000;

/// What a call reads.
#[derive(Clone, Copy)]
pub(crate) struct Given<'a> {
    /// What the shelf has as `job`.
    pub(crate) options: &'a [u8],
    pub(crate) records: &'a [u8],
}

/// What a call came to.
#[derive(Drop)]
pub(crate) struct Called {
    pub(crate) status: Status,
    pub(crate) journal: Many<Entry>,
    sink: MemSink,
}

impl Called {
    /// What the sink got.
    pub(crate) fn text(&self) -> &[u8] {
        self.sink.got()
    }
}

#[derive(Drop)]
struct Outside {
    shelf: MemShelf,
    source: MemSource,
    sink: MemSink,
    trace: MemSink,
}

/// What the words come to, with workers where they ask for them.
pub(crate) fn call<R: Threads + Wait + Sync, G: Gate>(
    rt: &R,
    alloc: Global,
    words: &str,
    given: Given<'_>,
    gate: &G,
) -> Result<Called, AllocError> {
    let words: Vec<&str> = words.split_whitespace().collect(alloc)?;
    let mut outside = outside_of(alloc, given)?;
    let ran = run(rt, alloc, words.as_slice(), &mut outside, gate);
    Ok(Called {
        status: ran.status,
        journal: ran.journal,
        sink: outside.sink,
    })
}

fn run<R: Threads + Wait + Sync, G: Gate>(
    rt: &R,
    alloc: Global,
    words: &[&str],
    outside: &mut Outside,
    gate: &G,
) -> Ran {
    let shelf = &mut outside.shelf;
    let source = &mut outside.source;
    let sink = &mut outside.sink;
    let trace = &mut outside.trace;
    hive(rt, alloc, words, shelf, source, sink, trace, gate)
}

fn outside_of(alloc: Global, given: Given<'_>) -> Result<Outside, AllocError> {
    let shelf = shelf_of(alloc, given.options)?;
    let source = source_of(alloc, given.records)?;
    let sink = MemSink::new(alloc, PIECE, ROOM, Vec::new(alloc))?;
    let trace = MemSink::new(alloc, PIECE, 0, Vec::new(alloc))?;
    Ok(Outside {
        shelf,
        source,
        sink,
        trace,
    })
}

fn shelf_of(alloc: Global, options: &[u8]) -> Result<MemShelf, AllocError> {
    let options = Vec::from_slice(alloc, options)?;
    let files = Vec::from_array(alloc, [(Text::from_str(alloc, "job")?, options)])?;
    Ok(MemShelf::new(files, Vec::new(alloc)))
}

fn source_of(alloc: Global, records: &[u8]) -> Result<MemSource, AllocError> {
    let records = Vec::from_slice(alloc, records)?;
    Ok(MemSource::new(records, PIECE, Vec::new(alloc)))
}
