//! Sets of numbers.
//!
//! A row is calls with `;` between, on a set that begins empty: `in` and `out` with a number, which give all numbers of
//! the set in order; `less` and numbers, which takes all of them out at once; `has` and `from` with a number, which
//! give their answer.
use crate::words::{push_call, short, told, word};
use hive_model::MOST_ALGORITHMS;
use number_set::NumberSet;
use std::alloc::{AllocError, Global};

/// What a row comes to.
pub(crate) fn numbers_text(alloc: Global, calls: &str) -> Result<String, AllocError> {
    let mut set = NumberSet::new();
    let mut all = String::new(alloc);
    for call in calls.split(';') {
        let words: Vec<&str> = call.split_whitespace().collect(alloc)?;
        let text = answer(alloc, &mut set, words.as_slice())?;
        push_call(&mut all, text.as_str())?;
    }
    Ok(all)
}

fn answer(alloc: Global, set: &mut NumberSet, words: &[&str]) -> Result<String, AllocError> {
    let number = short(words, 1);
    if usize::from(number) >= MOST_ALGORITHMS {
        return told(alloc, "no number");
    }
    match word(words, 0) {
        "in" => set.insert(number),
        "out" => set.remove(number),
        "less" => *set = set.without(&set_of(words)),
        "has" => return format!(in alloc; "{}", set.contains(number)),
        "from" => return format!(in alloc; "{:?}", set.first_from(number)),
        _ => return told(alloc, "no call"),
    }
    format!(in alloc; "{:?}", numbers_in(alloc, set)?)
}

// The numbers behind the first word.
fn set_of(words: &[&str]) -> NumberSet {
    let mut set = NumberSet::new();
    for place in 1..words.len() {
        let number = short(words, place);
        if usize::from(number) < MOST_ALGORITHMS {
            set.insert(number);
        }
    }
    set
}

/// The numbers of a set, in order.
pub(crate) fn numbers_in(alloc: Global, set: &NumberSet) -> Result<Vec<u16>, AllocError> {
    let mut numbers = Vec::new(alloc);
    let mut from: u16 = 0;
    for _number in 0..MOST_ALGORITHMS {
        if let Some(number) = set.first_from(from) {
            numbers.push(number)?;
            from = number.saturating_add(1);
        }
    }
    Ok(numbers)
}
