//! Rows of single calls of the outside in memory.
//!
//! A row has five parts with `|` between: `source`, `sink` or `shelf`; its bytes, its room, or its files with `;` between
//! (`name=text`); how many bytes it gives or takes in one call; the numbers of the calls that fail; and the calls, with
//! `;` between: the size of a buffer for a source, `flush` or a text to send for a sink, a name and a limit for a shelf.
ghost use Rattle.std.specs.Prelude.{◌<◌, length};

use crate::case::{number_of, numbers_of};
use hive_edge::{Failed, MemShelf, MemSink, MemSource, Shelf, ShelfFault, Sink, Source, send};
use hive_model::Text;
use std::alloc::{AllocError, Global};

/// What the calls come to, with ` / ` between, or `None` where the line is no such row.
pub(crate) fn calls_of(alloc: Global, line: &str) -> anyhow::Result<Option<String>> {
    let parts: Vec<&str> = line.split('|').collect(alloc)?;
    let [kind, what, piece, failing, calls] = parts.as_slice() else {
        return Ok(None);
    };
    let piece = number_of(piece);
    if piece == 0 {
        return Ok(None);
    }
    let failing = numbers_of(alloc, failing)?;
    match kind.trim() {
        "source" => Ok(Some(reads(alloc, what.trim(), piece, failing, calls)?)),
        "sink" => Ok(Some(writes(alloc, number_of(what), piece, failing, calls)?)),
        "shelf" => Ok(Some(fetches(alloc, what, failing, calls)?)),
        _ => Ok(None),
    }
}

// What each read gave.
fn reads(
    alloc: Global,
    text: &str,
    piece: usize,
    failing: Vec<u64>,
    calls: &str,
) -> Result<String, AllocError>
    requires { 0 < piece }
{
    let mut source = MemSource::new(Vec::from_slice(alloc, text.as_bytes())?, piece, failing);
    let mut all = String::new(alloc);
    for call in calls.split(';') {
        let read = read(alloc, &mut source, number_of(call))?;
        push_call(&mut all, read.as_str())?;
    }
    Ok(all)
}

pub(crate) fn push_call(all: &mut String, call: &str) -> Result<(), AllocError> {
    if !all.is_empty() {
        all.push_str(" / ")?;
    }
    all.push_str(call)
}

// One read into a buffer of that size.
pub(crate) fn read<S: Source>(
    alloc: Global,
    source: &mut S,
    size: usize,
) -> Result<String, AllocError> {
    let mut buf = vec![in alloc; 0u8; size]?;
    if buf.is_empty() {
        return String::from_str(alloc, "no buffer");
    }
    match source.read(buf.as_mut_slice()) {
        Ok(count) => {
            let text = String::from_utf8_lossy(alloc, &buf[..count])?;
            format!(in alloc; "{text:?}")
        }
        Err(failed) => format!(in alloc; "{failed:?}"),
    }
}

// What each call left in the sink.
fn writes(
    alloc: Global,
    room: usize,
    piece: usize,
    failing: Vec<u64>,
    calls: &str,
) -> Result<String, AllocError>
    requires { 0 < piece }
{
    let mut sink = MemSink::new(alloc, piece, room, failing)?;
    let mut all = String::new(alloc);
    for call in calls.split(';') {
        let answer = write(&mut sink, call.trim());
        let got = String::from_utf8_lossy(alloc, sink.got())?;
        let shown = format!(in alloc; "{answer:?} {got:?}")?;
        push_call(&mut all, shown.as_str())?;
    }
    Ok(all)
}

fn write(sink: &mut MemSink, call: &str) -> Result<(), Failed> {
    match call {
        "flush" => sink.flush(),
        text => send(sink, text.as_bytes()),
    }
}

// What each call fetched. The text that stood in the vector before is gone.
fn fetches(
    alloc: Global,
    files: &str,
    failing: Vec<u64>,
    calls: &str,
) -> Result<String, AllocError> {
    let mut shelf = MemShelf::new(files_of(alloc, files)?, failing);
    let mut all = String::new(alloc);
    let mut out = Vec::from_slice(alloc, b"old")?;
    for call in calls.split(';') {
        let (name, limit) = call.trim().split_once(' ').unwrap_or((call, ""));
        let answer: Result<(), ShelfFault> = shelf.fetch(name, number_of(limit), &mut out);
        let text = String::from_utf8_lossy(alloc, out.as_slice())?;
        let shown = format!(in alloc; "{answer:?} {text:?}")?;
        push_call(&mut all, shown.as_str())?;
    }
    Ok(all)
}

fn files_of(alloc: Global, text: &str) -> Result<Vec<(Text, Vec<u8>)>, AllocError> {
    let mut files = Vec::new(alloc);
    for file in text.trim().split(';') {
        let (name, text) = file.split_once('=').unwrap_or((file, ""));
        let name = Text::from_str(alloc, name)?;
        files.push((name, Vec::from_slice(alloc, text.as_bytes())?))?;
    }
    Ok(files)
}
