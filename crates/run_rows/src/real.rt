//! Rows of single calls of the real streams, over a reader and a writer that fail when they are told to, and of the real
//! files: what std's traits don't tell.
//!
//! A row has five parts as those of `outside`: `reader`, `writer` or `file`; the reader's bytes; how many bytes it gives or
//! takes in one call; the numbers of the calls that fail; and the calls.
use crate::case::{number_of, numbers_of};
use crate::outside::{push_call, read};
use hive_edge::{Failed, Shelf, Sink, send};
use hive_real::{RealFiles, RealIn, RealOut};
use std::alloc::{AllocError, Global};
use std::io::{ErrorKind, Read, Write};
use std::rt::Files;

// A reader and a writer in one. Its calls are numbered from 1.
#[derive(Drop)]
struct Fickle<'a> {
    bytes: &'a [u8],
    piece: usize,
    failing: Vec<u64>,
    calls: u64,
}

impl Fickle<'_> {
    fn call(&mut self) -> std::io::Result<()> {
        self.calls = self.calls.saturating_add(1);
        for number in &self.failing {
            if *number == self.calls {
                return Err(ErrorKind::Other.into());
            }
        }
        Ok(())
    }
}

impl Read for Fickle<'_> {
    fn read(&mut self, buf: &mut [u8]) -> std::io::Result<usize> {
        self.call()?;
        let count = self.bytes.len().min(buf.len()).min(self.piece);
        let (piece, rest) = self.bytes.split_at(count);
        buf[..count].copy_from_slice(piece);
        self.bytes = rest;
        Ok(count)
    }
}

impl Write for Fickle<'_> {
    fn write(&mut self, buf: &[u8]) -> std::io::Result<usize> {
        self.call()?;
        Ok(buf.len().min(self.piece))
    }

    fn flush(&mut self) -> std::io::Result<()> {
        self.call()
    }
}

/// What the calls of a row come to, with ` / ` between, or `None` where the line is no such row.
pub(crate) fn calls_of<R: Files>(
    rt: &R,
    alloc: Global,
    line: &str,
) -> Result<Option<String>, AllocError> {
    let parts: Vec<&str> = line.split('|').collect(alloc)?;
    let [kind, bytes, piece, failing, calls] = parts.as_slice() else {
        return Ok(None);
    };
    let fickle = Fickle {
        bytes: bytes.trim().as_bytes(),
        piece: number_of(piece),
        failing: numbers_of(alloc, failing)?,
        calls: 0,
    };
    match kind.trim() {
        "reader" => Ok(Some(reads(alloc, fickle, calls)?)),
        "writer" => Ok(Some(writes(alloc, fickle, calls)?)),
        "file" => Ok(Some(fetches(rt, alloc, calls)?)),
        _ => Ok(None),
    }
}

fn reads(alloc: Global, reader: Fickle<'_>, calls: &str) -> Result<String, AllocError> {
    let mut source = RealIn::new(reader);
    let mut all = String::new(alloc);
    for call in calls.split(';') {
        let read = read(alloc, &mut source, number_of(call))?;
        push_call(&mut all, read.as_str())?;
    }
    Ok(all)
}

fn writes(alloc: Global, writer: Fickle<'_>, calls: &str) -> Result<String, AllocError> {
    let mut sink = RealOut::new(writer);
    let mut all = String::new(alloc);
    for call in calls.split(';') {
        let answer = write(&mut sink, call.trim());
        let shown = format!(in alloc; "{answer:?}")?;
        push_call(&mut all, shown.as_str())?;
    }
    Ok(all)
}

fn write(sink: &mut RealOut<Fickle<'_>>, call: &str) -> Result<(), Failed> {
    match call {
        "flush" => sink.flush(),
        text => send(sink, text.as_bytes()),
    }
}

// What is fetched of the files of data/.
fn fetches<R: Files>(rt: &R, alloc: Global, calls: &str) -> Result<String, AllocError> {
    let mut files = RealFiles::new(rt);
    let mut all = String::new(alloc);
    let mut out = Vec::from_slice(alloc, b"old")?;
    for call in calls.split(';') {
        let (name, limit) = call.trim().split_once(' ').unwrap_or((call, ""));
        let answer = files.fetch(name, number_of(limit), &mut out);
        let text = String::from_utf8_lossy(alloc, out.as_slice())?;
        let shown = format!(in alloc; "{answer:?} {text:?}")?;
        push_call(&mut all, shown.as_str())?;
    }
    Ok(all)
}
