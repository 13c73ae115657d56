//! The states of algorithms.
//!
//! A row is calls with `;` between: `reach`, `schedule` and `unschedule` with an algorithm, `finish` with an algorithm and
//! its outcome, `arrive` with a handle, `clear`, and `start`, which does nothing. Each gives the first letters of the
//! states of all algorithms, and all that can run, in order. `next FROM` gives what can run next.
ghost use Rattle.std.specs.Prelude.{◌≡◌, ◌<◌, ◌≤◌, true, false, IfOk, length};
ghost use Rattle.hive_model.specs.Valid.{IsValidJob};
ghost use Rattle.algo_states.specs.States.{opening_of};
ghost use Rattle.parts_rows.specs.Following.{IsTableOf, Follows};

use crate::words::{count_of, outcome, push_call, short, told, word};
use algo_states::{State, StateTable};
use hive_model::{Job, MOST_ALGORITHMS};
use std::alloc::{AllocError, Global};

/// What a row comes to.
pub(crate) fn states_text(alloc: Global, job: &Job, calls: &str) -> Result<String, AllocError>
    requires { IsValidJob job.now }
{
    let mut table = opened(alloc, job)?;
    let mut arrived = vec![in alloc; false; usize::from(job.handles())]?;
    let mut all = String::new(alloc);
    for call in calls.split(';') {
        let words: Vec<&str> = call.split_whitespace().collect(alloc)?;
        let text = answer(alloc, job, &mut table, &mut arrived, words.as_slice())?;
        push_call(&mut all, text.as_str())?;
    }
    Ok(all)
}

fn opened(alloc: Global, job: &Job) -> Result<StateTable, AllocError>
    requires { IsValidJob job.now }
    ensures { IfOk result (λ it. it ≡ opening_of job.now) }
{
    StateTable::new(alloc, job)
}

fn answer(
    alloc: Global,
    job: &Job,
    table: &mut StateTable,
    arrived: &mut Vec<bool>,
    words: &[&str],
) -> Result<String, AllocError>
    requires { Follows job.now table.old arrived.old.items }
    ensures { Follows job.now table.new arrived.new.items }
{
    let number = short(words, 1);
    match word(words, 0) {
        "start" => {}
        "clear" => clear(job, table, arrived),
        "arrive" => arrive(job, table, arrived, number),
        "next" => return format!(in alloc; "{:?}", table.next_ready(number)),
        _ => tell(job, table, arrived, words, number),
    }
    shown(alloc, job, table)
}

fn clear(job: &Job, table: &mut StateTable, arrived: &mut Vec<bool>)
    requires { Follows job.now table.old arrived.old.items }
    ensures { Follows job.now table.new arrived.new.items }
{
    table.clear();
    arrived.fill(false);
}

// A handle that hasn't arrived arrives.
fn arrive(job: &Job, table: &mut StateTable, arrived: &mut Vec<bool>, handle: u16)
    requires { Follows job.now table.old arrived.old.items }
    ensures { Follows job.now table.new arrived.new.items }
{
    let number = usize::from(handle);
    if number < arrived.len() && !arrived[number] {
        arrived[number] = true;
        table.arrive(handle);
    }
}

// Something of an algorithm is told.
fn tell(job: &Job, table: &mut StateTable, arrived: &mut Vec<bool>, words: &[&str], number: u16)
    requires { Follows job.now table.old arrived.old.items }
    ensures { Follows job.now table.new arrived.new.items }
{
    if usize::from(number) < job.algorithms().len() {
        match word(words, 0) {
            "reach" => table.reach(number),
            "schedule" => table.schedule(number),
            "unschedule" => table.unschedule(number),
            _ => table.finish(number, &outcome(words, 2)),
        }
    }
}

fn shown(alloc: Global, job: &Job, table: &StateTable) -> Result<String, AllocError>
    requires { IsTableOf job.now table.now }
{
    let mut text = String::new(alloc);
    for number in 0..count_of(job.algorithms().len()) {
        text.push_str(letter(table.state(number)))?;
    }
    let ready = ready_in(alloc, table)?;
    format!(in alloc; "{text} {ready:?}")
}

fn letter(state: State) -> &'static str {
    match state {
        State::Initial => "I",
        State::ControlReady => "C",
        State::DataReady => "D",
        State::Scheduled => "S",
        State::Accepted => "A",
        State::Rejected => "R",
        State::Error => "E",
    }
}

// All that can run, in order.
fn ready_in(alloc: Global, table: &StateTable) -> Result<Vec<u16>, AllocError> {
    let mut ready = Vec::new(alloc);
    let mut from: u16 = 0;
    for _number in 0..MOST_ALGORITHMS {
        if let Some(number) = table.next_ready(from) {
            ready.push(number)?;
            from = number.saturating_add(1);
        }
    }
    Ok(ready)
}
