//! The text of a row.
use std::alloc::{AllocError, Global};

/// The parts of a line, put together.
pub(crate) fn text_of(alloc: Global, line: &str) -> Result<String, AllocError> {
    let line = line.replace(alloc, "\\n", "\n")?;
    let mut text = String::new(alloc);
    for part in line.as_str().split('|') {
        push_part(alloc, &mut text, part)?;
    }
    Ok(text)
}

fn push_part(alloc: Global, text: &mut String, part: &str) -> Result<(), AllocError> {
    let Some((front, piece)) = part.split_once('*') else {
        return text.push_str(part);
    };
    match front.parse() {
        Ok(count) => push_repeated(alloc, text, count, piece),
        Err(_) => text.push_str(part),
    }
}

fn push_repeated(
    alloc: Global,
    text: &mut String,
    count: u16,
    piece: &str,
) -> Result<(), AllocError> {
    for number in 0..count {
        let own = format!(in alloc; "{number}")?;
        let next = format!(in alloc; "{}", number + 1)?;
        let piece = piece.replace(alloc, "#", own.as_str())?;
        text.push_str(piece.as_str().replace(alloc, "@", next.as_str())?.as_str())?;
    }
    Ok(())
}
