//! The words of a call.
ghost use Rattle.std.specs.Prelude.{◌≤◌};

use hive_model::{Fault, Outcome, Place};
use std::alloc::{AllocError, Global};

pub(crate) fn word<'a>(words: &[&'a str], index: usize) -> &'a str {
    match words.get(index) {
        Some(word) => word,
        None => "",
    }
}

pub(crate) fn byte(words: &[&str], index: usize) -> u8 {
    word(words, index).parse().unwrap_or(0)
}

pub(crate) fn short(words: &[&str], index: usize) -> u16 {
    word(words, index).parse().unwrap_or(0)
}

pub(crate) fn long(words: &[&str], index: usize) -> u64 {
    word(words, index).parse().unwrap_or(0)
}

/// Appends what a call gave to what the calls before it gave.
pub(crate) fn push_call(all: &mut String, call: &str) -> Result<(), AllocError> {
    if !all.is_empty() {
        all.push_str(" / ")?;
    }
    all.push_str(call)
}

/// A text that is the same for each row.
pub(crate) fn told(alloc: Global, text: &str) -> Result<String, AllocError> {
    String::from_str(alloc, text)
}

/// How an algorithm ended: `accept`, `reject`, or anything else for a fault.
pub(crate) fn outcome(words: &[&str], index: usize) -> Outcome {
    match word(words, index) {
        "accept" => Outcome::Accepted,
        "reject" => Outcome::Rejected,
        _ => Outcome::Failed(Place::Filter, Fault::Empty),
    }
}

/// How many there are. No job has more than 65,535 of anything.
pub(crate) fn count_of(len: usize) -> u16
    ensures { result ≤ len }
{
    u16::try_from(len).unwrap_or(0)
}
