//! Options that are drawn by lot.
//!
//! A job has one to three raw handles, up to two resources, two to eight algorithms and up to six sequences.
//! Handles are called `h0`, `h1` and so on, in the order in which they are written. Most inputs are handles
//! before their algorithm; one that isn't may make a circle, so some options are refused.
use crate::numbers::Numbers;
use std::alloc::{AllocError, Global};

const OPERATORS: [&str; 5] = ["+", "-", "*", "/", "%"];

const COMPARISONS: [&str; 6] = ["<", "<=", "==", "!=", ">", ">="];

const FROM_LISTS: [&str; 5] = ["sum(", "len(", "max(", "min(", "-sum("];

const OF_LISTS: [&str; 4] = ["above(", "scale(", "shift(", "first("];

/// An options text.
pub(crate) fn options(alloc: Global, numbers: &mut Numbers) -> Result<String, AllocError> {
    let mut text = String::from_str(alloc, "top = \"S0\"\n")?;
    let algorithms = put_algorithms(alloc, &mut text, numbers)?;
    put_sequences(alloc, &mut text, numbers, algorithms)?;
    Ok(text)
}

// All but the sequences; gives the number of algorithms.
fn put_algorithms(
    alloc: Global,
    text: &mut String,
    numbers: &mut Numbers,
) -> Result<u64, AllocError> {
    let mut lists = Vec::new(alloc);
    put_raws(text, numbers, &mut lists)?;
    let resources = numbers.below(3);
    put_resources(text, numbers, resources)?;
    let count = numbers.below(7).saturating_add(2);
    for number in 0..count {
        put_algorithm(alloc, text, numbers, &mut lists, number, resources)?;
    }
    Ok(count)
}

fn put_sequences(
    alloc: Global,
    text: &mut String,
    numbers: &mut Numbers,
    algorithms: u64,
) -> Result<(), AllocError> {
    let count = numbers.below(6).saturating_add(1);
    let homes = homes(alloc, numbers, algorithms, count)?;
    for number in 0..count {
        put_sequence(text, numbers, homes.as_slice(), algorithms, number)?;
    }
    Ok(())
}

// A raw handle is a list or a number; `lists` says which for each handle so far.
fn put_raws(
    text: &mut String,
    numbers: &mut Numbers,
    lists: &mut Vec<bool>,
) -> Result<(), AllocError> {
    let count = numbers.below(3).saturating_add(1);
    for number in 0..count {
        let list = numbers.one_of(2);
        let kind = kind_word(list);
        write!(text, "[[raw]]\nname = \"h{number}\"\nkind = \"{kind}\"\n")?;
        lists.push(list)?;
    }
    Ok(())
}

fn kind_word(list: bool) -> &'static str {
    if list { "list" } else { "num" }
}

fn put_resources(text: &mut String, numbers: &mut Numbers, count: u64) -> Result<(), AllocError> {
    for number in 0..count {
        let units = numbers.below(2).saturating_add(1);
        write!(
            text,
            "[[resource]]\nname = \"R{number}\"\nunits = {units}\n"
        )?;
    }
    Ok(())
}

fn put_algorithm(
    alloc: Global,
    text: &mut String,
    numbers: &mut Numbers,
    lists: &mut Vec<bool>,
    number: u64,
    resources: u64,
) -> Result<(), AllocError> {
    let inputs = inputs(alloc, numbers, lists.len() as u64)?;
    put_head(text, numbers, number, inputs.as_slice())?;
    put_needed(text, numbers, resources)?;
    put_filter(text, numbers, inputs.as_slice(), lists.as_slice())?;
    put_outputs(text, numbers, inputs.as_slice(), lists)
}

fn put_head(
    text: &mut String,
    numbers: &mut Numbers,
    number: u64,
    inputs: &[u64],
) -> Result<(), AllocError> {
    let cardinality = numbers.below(3);
    write!(text, "[[algorithm]]\nname = \"A{number}\"\n")?;
    write!(text, "cardinality = {cardinality}\ninputs = [")?;
    for input in inputs {
        write!(text, "\"h{input}\", ")?;
    }
    text.push_str("]\n")
}

fn put_needed(text: &mut String, numbers: &mut Numbers, resources: u64) -> Result<(), AllocError> {
    text.push_str("resources = [")?;
    for resource in 0..resources {
        if numbers.one_of(3) {
            write!(text, "\"R{resource}\", ")?;
        }
    }
    text.push_str("]\n")
}

// A filter, for three of four.
fn put_filter(
    text: &mut String,
    numbers: &mut Numbers,
    inputs: &[u64],
    lists: &[bool],
) -> Result<(), AllocError> {
    if numbers.one_of(4) {
        return Ok(());
    }
    text.push_str("filter = \"")?;
    put_comparison(text, numbers, inputs, lists)?;
    text.push_str("\"\n")
}

// Some of the handles so far, and now and then one behind them.
fn inputs(alloc: Global, numbers: &mut Numbers, known: u64) -> Result<Vec<u64>, AllocError> {
    let mut inputs = Vec::new(alloc);
    for handle in 0..known {
        if numbers.below(known) < 2 {
            inputs.push(handle)?;
        }
    }
    if numbers.one_of(40) {
        inputs.push(known.saturating_add(numbers.below(4)))?;
    }
    Ok(inputs)
}

fn put_outputs(
    text: &mut String,
    numbers: &mut Numbers,
    inputs: &[u64],
    lists: &mut Vec<bool>,
) -> Result<(), AllocError> {
    let count = numbers.below(3);
    for _output in 0..count {
        let number = lists.len();
        let list = numbers.one_of(2) && has_list(inputs, lists.as_slice());
        let kind = kind_word(list);
        write!(
            text,
            "[[algorithm.output]]\nname = \"h{number}\"\nkind = \"{kind}\"\nvalue = \""
        )?;
        if list {
            put_list(text, numbers, inputs, lists.as_slice())?;
        } else {
            put_number(text, numbers, inputs, lists.as_slice())?;
        }
        text.push_str("\"\n")?;
        lists.push(list)?;
    }
    Ok(())
}

fn has_list(inputs: &[u64], lists: &[bool]) -> bool {
    for input in inputs {
        if is_list(*input, lists) {
            return true;
        }
    }
    false
}

// A handle that isn't there yet is taken for a number.
fn is_list(handle: u64, lists: &[bool]) -> bool {
    match lists.get(handle as usize) {
        Some(list) => *list,
        None => false,
    }
}

fn put_comparison(
    text: &mut String,
    numbers: &mut Numbers,
    inputs: &[u64],
    lists: &[bool],
) -> Result<(), AllocError> {
    put_number(text, numbers, inputs, lists)?;
    write!(text, " {} ", numbers.word(&COMPARISONS))?;
    put_term(text, numbers, inputs, lists)
}

fn put_number(
    text: &mut String,
    numbers: &mut Numbers,
    inputs: &[u64],
    lists: &[bool],
) -> Result<(), AllocError> {
    put_term(text, numbers, inputs, lists)?;
    write!(text, " {} ", numbers.word(&OPERATORS))?;
    put_term(text, numbers, inputs, lists)
}

// An input, what a list of the inputs comes to, or a small number.
fn put_term(
    text: &mut String,
    numbers: &mut Numbers,
    inputs: &[u64],
    lists: &[bool],
) -> Result<(), AllocError> {
    if let Some(index) = numbers.index(inputs.len()) {
        if !numbers.one_of(5) {
            return put_input(text, numbers, inputs[index], lists);
        }
    }
    write!(text, "{}", numbers.below(7))
}

fn put_input(
    text: &mut String,
    numbers: &mut Numbers,
    handle: u64,
    lists: &[bool],
) -> Result<(), AllocError> {
    if is_list(handle, lists) {
        write!(text, "{}h{handle})", numbers.word(&FROM_LISTS))
    } else {
        write!(text, "h{handle}")
    }
}

// A list that is made of the last list of the inputs.
fn put_list(
    text: &mut String,
    numbers: &mut Numbers,
    inputs: &[u64],
    lists: &[bool],
) -> Result<(), AllocError> {
    let mut last = 0;
    for input in inputs {
        if is_list(*input, lists) {
            last = *input;
        }
    }
    if numbers.one_of(4) {
        return write!(text, "cat(h{last}, h{last})");
    }
    write!(text, "{}h{last}, ", numbers.word(&OF_LISTS))?;
    write!(text, "{})", numbers.below(4))
}

// For each algorithm and then each sequence the sequences that it is a member of, of which there are so many:
// one, and for an algorithm maybe a second one. The top is a member of none.
fn homes(
    alloc: Global,
    numbers: &mut Numbers,
    algorithms: u64,
    sequences: u64,
) -> Result<Vec<(u64, u64)>, AllocError> {
    let mut homes = Vec::new(alloc);
    for _algorithm in 0..algorithms {
        let home = numbers.below(sequences);
        let second = numbers.below(sequences.saturating_mul(3));
        homes.push((home, second))?;
    }
    homes.push((sequences, sequences))?;
    for number in 1..sequences {
        homes.push((numbers.below(number), sequences))?;
    }
    Ok(homes)
}

fn put_sequence(
    text: &mut String,
    numbers: &mut Numbers,
    homes: &[(u64, u64)],
    algorithms: u64,
    number: u64,
) -> Result<(), AllocError> {
    write!(text, "[[sequence]]\nname = \"S{number}\"\nmembers = [")?;
    put_members(text, numbers, homes, algorithms, number)?;
    text.push_str("]\n")?;
    put_flag(text, "mode_or", numbers.one_of(2))?;
    put_flag(text, "short_circuit", !numbers.one_of(3))?;
    put_flag(text, "sequential", numbers.one_of(2))?;
    put_flag(text, "invert", numbers.one_of(5))?;
    put_flag(text, "ignore_filter", numbers.one_of(6))
}

fn put_flag(text: &mut String, name: &str, flag: bool) -> Result<(), AllocError> {
    write!(text, "{name} = {flag}\n")
}

// The members of a sequence, beginning anywhere among all.
fn put_members(
    text: &mut String,
    numbers: &mut Numbers,
    homes: &[(u64, u64)],
    algorithms: u64,
    sequence: u64,
) -> Result<(), AllocError> {
    let Some(first) = numbers.index(homes.len()) else {
        return Ok(());
    };
    for index in first..homes.len() {
        put_member(text, homes, algorithms, sequence, index)?;
    }
    for index in 0..first {
        put_member(text, homes, algorithms, sequence, index)?;
    }
    Ok(())
}

fn put_member(
    text: &mut String,
    homes: &[(u64, u64)],
    algorithms: u64,
    sequence: u64,
    index: usize,
) -> Result<(), AllocError> {
    let Some((home, second)) = homes.get(index) else {
        return Ok(());
    };
    if *home != sequence && *second != sequence {
        return Ok(());
    }
    let number = index as u64;
    if number < algorithms {
        write!(text, "\"A{number}\", ")
    } else {
        write!(text, "\"S{}\", ", number.saturating_sub(algorithms))
    }
}
