//! The words of a call.
use std::alloc::{AllocError, Global};

pub(crate) fn word<'a>(words: &[&'a str], index: usize) -> &'a str {
    match words.get(index) {
        Some(word) => word,
        None => "",
    }
}

pub(crate) fn byte(words: &[&str], index: usize) -> u8 {
    word(words, index).parse().unwrap_or(0)
}

pub(crate) fn short(words: &[&str], index: usize) -> u16 {
    word(words, index).parse().unwrap_or(0)
}

pub(crate) fn long(words: &[&str], index: usize) -> u64 {
    word(words, index).parse().unwrap_or(0)
}

/// Appends what a call gave to what the calls before it gave.
pub(crate) fn push_call(all: &mut String, call: &str) -> Result<(), AllocError> {
    if !all.is_empty() {
        all.push_str(" / ")?;
    }
    all.push_str(call)
}

/// A text that is the same for each row.
pub(crate) fn told(alloc: Global, text: &str) -> Result<String, AllocError> {
    String::from_str(alloc, text)
}
