//! Journals as text, and back.
//!
//! A row is `print` and entries with `;` between, each its name and its fields in the order of its type, `-` for no
//! instance and for the filter: what is printed is their text, whether reading it gives them back, and whether entry by
//! entry the same is appended. Or it is `parse |` and a text, with `\n` for a line feed and `\r` for a carriage return:
//! what is printed are its entries, or the refusal.
use crate::words::{byte, long, short, word};
use hive_model::{Entry, Fault, Outcome, Place};
use std::alloc::{AllocError, Global};
use timeline::{parse, print, print_entry};

/// What a row comes to.
pub(crate) fn timeline_text(alloc: Global, rest: &str) -> Result<String, AllocError> {
    if let Some(text) = rest.strip_prefix("parse |") {
        return parsed(alloc, text);
    }
    match rest.strip_prefix("print") {
        Some(entries) => printed(alloc, entries_of(alloc, entries)?.as_slice()),
        None => format!(in alloc; "no row: {rest}"),
    }
}

fn parsed(alloc: Global, text: &str) -> Result<String, AllocError> {
    let text = text.replace(alloc, "\\n", "\n")?;
    let text = text.as_str().replace(alloc, "\\r", "\r")?;
    match parse(alloc, text.as_str().as_bytes()) {
        Ok(entries) => format!(in alloc; "{:?}", entries.as_slice()),
        Err(refusal) => format!(in alloc; "{refusal:?}"),
    }
}

fn printed(alloc: Global, entries: &[Entry]) -> Result<String, AllocError> {
    let text = print(alloc, entries)?;
    let shown = match str::from_utf8(text.as_slice()) {
        Ok(shown) => shown.replace(alloc, "\n", "\\n")?,
        Err(_) => String::from_str(alloc, "no text")?,
    };
    let back = is_read_back(alloc, text.as_slice(), entries);
    let appended = appended(alloc, entries)?;
    let same = appended.as_slice().strip_prefix(BEFORE) == Some(text.as_slice());
    format!(in alloc; "{shown} {back} {same}")
}

fn is_read_back(alloc: Global, text: &[u8], entries: &[Entry]) -> bool {
    match parse(alloc, text) {
        Ok(read) => read.as_slice() == entries,
        Err(_) => false,
    }
}

const BEFORE: &[u8] = b"last\n";

fn appended(alloc: Global, entries: &[Entry]) -> Result<Vec<u8>, AllocError> {
    let mut text = Vec::from_slice(alloc, BEFORE)?;
    for entry in entries {
        print_entry(entry, &mut text)?;
    }
    Ok(text)
}

fn entries_of(alloc: Global, text: &str) -> Result<Vec<Entry>, AllocError> {
    let mut entries = Vec::new(alloc);
    for part in text.split(';') {
        let words: Vec<&str> = part.split_whitespace().collect(alloc)?;
        if !words.is_empty() {
            entries.push(entry_of(words.as_slice()))?;
        }
    }
    Ok(entries)
}

fn entry_of(words: &[&str]) -> Entry {
    match word(words, 0) {
        "Admit" => Entry::Admit {
            slot: byte(words, 1),
            place: long(words, 2),
        },
        "Claim" => Entry::Claim {
            slot: byte(words, 1),
            algorithm: short(words, 2),
            clone: word(words, 3).parse().ok(),
            worker: byte(words, 4),
        },
        "Done" => Entry::Done {
            ticket: long(words, 1),
            outcome: outcome_of(words),
        },
        "Back" => Entry::Back {
            ticket: long(words, 1),
        },
        "Retire" => Entry::Retire {
            slot: byte(words, 1),
        },
        _ => Entry::Last,
    }
}

fn outcome_of(words: &[&str]) -> Outcome {
    match word(words, 2) {
        "Accepted" => Outcome::Accepted,
        "Rejected" => Outcome::Rejected,
        _ => Outcome::Failed(place_of(word(words, 3)), fault_of(word(words, 4))),
    }
}

fn place_of(word: &str) -> Place {
    match word.parse() {
        Ok(number) => Place::Output(number),
        Err(_) => Place::Filter,
    }
}

fn fault_of(word: &str) -> Fault {
    match word {
        "Overflow" => Fault::Overflow,
        "DivZero" => Fault::DivZero,
        "Empty" => Fault::Empty,
        "Index" => Fault::Index,
        _ => Fault::TooLong,
    }
}
