//! The parts of a row.
use crate::repeated::repeated;
use std::alloc::{AllocError, Global};

/// A text of records and how it is fed.
#[derive(Drop)]
pub(crate) struct Case<'a> {
    /// How many algorithms the job has.
    pub(crate) algorithms: usize,
    /// The names and kinds of the raw handles.
    pub(crate) raws: &'a str,
    /// The sizes of pieces, 0 for the whole text.
    pub(crate) sizes: Vec<usize>,
    pub(crate) text: String,
}

/// The case of a line, or `None` where the line is no row.
pub(crate) fn case_of(alloc: Global, line: &str) -> Result<Option<Case<'_>>, AllocError> {
    let parts: Vec<&str> = line.split('|').collect(alloc)?;
    let [algorithms, raws, sizes, text] = parts.as_slice() else {
        return Ok(None);
    };
    Ok(Some(Case {
        algorithms: number_of(algorithms),
        raws: raws.trim(),
        sizes: numbers_of(alloc, sizes)?,
        text: text_of(alloc, text.trim())?,
    }))
}

fn text_of(alloc: Global, text: &str) -> Result<String, AllocError> {
    let plain = bytes_of(alloc, text)?;
    let inner = repeated(alloc, plain.as_str(), '<', '>')?;
    repeated(alloc, inner.as_str(), '{', '}')
}

fn bytes_of(alloc: Global, text: &str) -> Result<String, AllocError> {
    let text = text.replace(alloc, "\\n", "\n")?;
    let text = text.as_str().replace(alloc, "\\r", "\r")?;
    let text = text.as_str().replace(alloc, "\\t", "\t")?;
    text.as_str().replace(alloc, "\\d", "\x7f")
}

// A number, or 0 where it isn't one.
pub(crate) fn number_of(text: &str) -> usize {
    text.trim().parse().unwrap_or(0)
}

fn numbers_of(alloc: Global, text: &str) -> Result<Vec<usize>, AllocError> {
    let mut numbers = Vec::new(alloc);
    for word in text.split_whitespace() {
        numbers.push(number_of(word))?;
    }
    Ok(numbers)
}
