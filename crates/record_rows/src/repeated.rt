//! Parts of a text that stand there several times.
use crate::case::number_of;
use std::alloc::{AllocError, Global};

/// The text, with `N:PART` between the brackets as N times PART.
pub(crate) fn repeated(
    alloc: Global,
    text: &str,
    opening: char,
    closing: char,
) -> Result<String, AllocError> {
    let mut out = String::new(alloc);
    for part in text.split(opening) {
        push_part(&mut out, part, closing)?;
    }
    Ok(out)
}

fn push_part(out: &mut String, part: &str, closing: char) -> Result<(), AllocError> {
    match part.split_once(closing) {
        Some((inside, behind)) => {
            push_times(out, inside)?;
            out.push_str(behind)
        }
        None => out.push_str(part),
    }
}

fn push_times(out: &mut String, inside: &str) -> Result<(), AllocError> {
    if let Some((count, part)) = inside.split_once(':') {
        for _ in 0..number_of(count) {
            out.push_str(part)?;
        }
    }
    Ok(())
}
