//! A journal of some length.
use hive_model::{Entry, Fault, Outcome, Place};
use std::alloc::{AllocError, Global};

/// So many entries, in the proportions of a run in which each event has about four algorithms: nothing looks whether
/// they fit together.
pub(crate) fn journal(alloc: Global, count: u64) -> Result<Vec<Entry>, AllocError> {
    let mut entries = Vec::new(alloc);
    for number in 0..count {
        entries.push(entry(number))?;
    }
    Ok(entries)
}

fn entry(number: u64) -> Entry {
    let slot = (number / 10 % 64) as u8;
    let place = number / 10 + 1;
    let kind = number % 10;
    if kind == 0 {
        Entry::Admit { slot, place }
    } else if kind == 9 {
        Entry::Retire { slot }
    } else if kind % 2 == 1 {
        claim(slot, number)
    } else {
        Entry::Done {
            ticket: number - 1,
            outcome: outcome(number),
        }
    }
}

fn claim(slot: u8, number: u64) -> Entry {
    Entry::Claim {
        slot,
        algorithm: (number % 1_000) as u16,
        clone: if number % 3 == 0 { None } else { Some(0) },
        worker: (number % 64) as u8,
    }
}

fn outcome(number: u64) -> Outcome {
    if number % 50 == 2 {
        Outcome::Failed(Place::Output(0), Fault::Overflow)
    } else if number % 7 == 0 {
        Outcome::Rejected
    } else {
        Outcome::Accepted
    }
}
