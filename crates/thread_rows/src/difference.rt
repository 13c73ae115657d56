//! Where a text differs from what is due.
use std::alloc::{AllocError, Global};

// How many bytes are shown from there on.
const SHOWN: usize = 40;

/// The first place where the texts differ, and what stands there; `None` where they are the same.
pub(crate) fn difference(
    alloc: Global,
    due: &[u8],
    got: &[u8],
) -> Result<Option<String>, AllocError> {
    match first_place(due, got) {
        Some(place) => {
            let due = shown_from(alloc, due, place)?;
            let got = shown_from(alloc, got, place)?;
            Ok(Some(format!(in alloc; "byte {place}: due {due:?}, got {got:?}")?))
        }
        None => Ok(None),
    }
}

fn first_place(due: &[u8], got: &[u8]) -> Option<usize> {
    for (place, byte) in due.iter().enumerate() {
        if got.get(place) != Some(byte) {
            return Some(place);
        }
    }
    if due.len() == got.len() {
        None
    } else {
        Some(due.len())
    }
}

fn shown_from(alloc: Global, text: &[u8], place: usize) -> Result<String, AllocError> {
    let mut bytes = Vec::new(alloc);
    for byte in text.iter().skip(place).take(SHOWN) {
        bytes.push(*byte)?;
    }
    String::from_utf8_lossy(alloc, bytes.as_slice())
}
