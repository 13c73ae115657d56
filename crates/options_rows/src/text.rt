//! The text of a row.
use std::alloc::{AllocError, Global};

/// The text of a line, or `None` where the line is no row.
pub(crate) fn text_of(alloc: Global, line: &str) -> Result<Option<String>, AllocError> {
    let line = line.replace(alloc, "\\n", "\n")?;
    let parts: Vec<&str> = line.as_str().split(" | ").collect(alloc)?;
    match parts.as_slice() {
        [text] => Ok(Some(String::from_str(alloc, text)?)),
        [front, count, piece, end] => {
            let count: u32 = count.trim().parse().unwrap_or(0);
            Ok(Some(repeated(alloc, front, count, piece, end)?))
        }
        _ => Ok(None),
    }
}

fn repeated(
    alloc: Global,
    front: &str,
    count: u32,
    piece: &str,
    end: &str,
) -> Result<String, AllocError> {
    let mut text = String::from_str(alloc, front)?;
    for _ in 0..count {
        text.push_str(piece)?;
    }
    text.push_str(end)?;
    Ok(text)
}
