//! The parts of a row.
ghost use Rattle.std.specs.Prelude.{◌<◌, IfOk, IfSome};

use std::alloc::{AllocError, Global};

/// A call with its outside.
#[derive(Drop)]
pub(crate) struct Case<'a> {
    pub(crate) words: &'a str,
    /// The file of data/ that the shelf has as `job`.
    pub(crate) file: &'a str,
    pub(crate) records: String,
    /// How many bytes the source gives in one call.
    pub(crate) piece: usize,
    /// How many bytes the sink takes in one call.
    pub(crate) takes: usize,
    /// The numbers of the calls that fail.
    pub(crate) shelf: Vec<u64>,
    pub(crate) source: Vec<u64>,
    pub(crate) sink: Vec<u64>,
    pub(crate) trace: Vec<u64>,
}

/// The case of a line, or `None` where the line is no row.
pub(crate) fn case_of(alloc: Global, line: &str) -> Result<Option<Case<'_>>, AllocError>
    ensures { IfOk result (λ o. IfSome o (λ case. (0 < case.piece) × (0 < case.takes))) }
{
    let parts: Vec<&str> = line.split('|').collect(alloc)?;
    let [
        words,
        file,
        records,
        piece,
        takes,
        shelf,
        source,
        sink,
        trace,
    ] = parts.as_slice()
    else {
        return Ok(None);
    };
    let piece = number_of(piece);
    let takes = number_of(takes);
    if piece == 0 || takes == 0 {
        return Ok(None);
    }
    Ok(Some(Case {
        words: words.trim(),
        file: file.trim(),
        records: records.trim().replace(alloc, "\\n", "\n")?,
        piece,
        takes,
        shelf: numbers_of(alloc, shelf)?,
        source: numbers_of(alloc, source)?,
        sink: numbers_of(alloc, sink)?,
        trace: numbers_of(alloc, trace)?,
    }))
}

// A number, or 0 where it isn't one.
pub(crate) fn number_of(text: &str) -> usize {
    text.trim().parse().unwrap_or(0)
}

// Numbers with spaces between; a word that is none counts as 0, which no call has.
pub(crate) fn numbers_of(alloc: Global, text: &str) -> Result<Vec<u64>, AllocError> {
    let mut numbers = Vec::new(alloc);
    for word in text.split_whitespace() {
        numbers.push(word.parse().unwrap_or(0))?;
    }
    Ok(numbers)
}
