//! Decisions and what control flow has reached.
//!
//! A row is calls with `;` between: `accept`, `reject` and `fail` settle an algorithm, and `clear` begins anew. Each gives
//! the algorithms that are told, the decisions of all sequences as T, F or U, the algorithms that are reached, and those
//! that are withdrawn.
ghost use Rattle.std.specs.Prelude.{◌≡◌, ◌<◌, true, Some, None, IfOk, length, slice_get};
ghost use Rattle.hive_model.specs.Valid.{IsValidJob};
ghost use Rattle.decision_nodes.specs.Tree.{cleared};
ghost use Rattle.parts_rows.specs.Settling.{IsForestOf};

use crate::numbers::numbers_in;
use crate::words::{count_of, outcome, push_call, short, told, word};
use decision_nodes::TreeTable;
use hive_model::{Decision, Job, Outcome};
use number_set::NumberSet;
use std::alloc::{AllocError, Global};

/// What a row comes to.
pub(crate) fn nodes_text(alloc: Global, job: &Job, calls: &str) -> Result<String, AllocError>
    requires { IsValidJob job.now }
{
    let mut table = opened(alloc, job)?;
    let mut outcomes = vec![in alloc; None; job.algorithms().len()]?;
    let mut all = String::new(alloc);
    for call in calls.split(';') {
        let words: Vec<&str> = call.split_whitespace().collect(alloc)?;
        let text = answer(alloc, job, &mut table, &mut outcomes, words.as_slice())?;
        push_call(&mut all, text.as_str())?;
    }
    Ok(all)
}

fn opened(alloc: Global, job: &Job) -> Result<TreeTable, AllocError>
    requires { IsValidJob job.now }
    ensures { IfOk result (λ it. it ≡ cleared job.now.sequences job.now.top (length job.now.algorithms)) }
{
    TreeTable::new(alloc, job)
}

fn answer(
    alloc: Global,
    job: &Job,
    table: &mut TreeTable,
    outcomes: &mut Vec<Option<Outcome>>,
    words: &[&str],
) -> Result<String, AllocError>
    requires { IsForestOf job.now table.old outcomes.old.items }
    ensures { IsForestOf job.now table.new outcomes.new.items }
{
    let number = short(words, 1);
    let told_now = if word(words, 0) == "clear" {
        clear(job, table, outcomes)
    } else if is_open(outcomes.as_slice(), number) {
        settle(job, table, outcomes, number, outcome(words, 0))
    } else {
        return told(alloc, "settled");
    };
    shown(alloc, job, table, outcomes.as_slice(), &told_now)
}

fn clear(job: &Job, table: &mut TreeTable, outcomes: &mut Vec<Option<Outcome>>) -> NumberSet
    requires { IsForestOf job.now table.old outcomes.old.items }
    ensures { IsForestOf job.now table.new outcomes.new.items }
{
    outcomes.fill(None);
    table.clear()
}

fn settle(
    job: &Job,
    table: &mut TreeTable,
    outcomes: &mut Vec<Option<Outcome>>,
    number: u16,
    outcome: Outcome,
) -> NumberSet
    requires forest { IsForestOf job.now table.old outcomes.old.items }
    requires unsettled { slice_get outcomes.old.items number ≡ Some None }
    ensures { IsForestOf job.now table.new outcomes.new.items }
{
    outcomes[usize::from(number)] = Some(outcome);
    table.settle(number, &outcome)
}

fn is_open(outcomes: &[Option<Outcome>], number: u16) -> bool
    ensures { result ≡ true → slice_get outcomes.now number ≡ Some None }
{
    match outcomes.get(usize::from(number)) {
        Some(Some(_)) => false,
        Some(None) => true,
        None => false,
    }
}

fn shown(
    alloc: Global,
    job: &Job,
    table: &TreeTable,
    outcomes: &[Option<Outcome>],
    newly: &NumberSet,
) -> Result<String, AllocError>
    requires { IsForestOf job.now table.now outcomes.now }
{
    let newly = numbers_in(alloc, newly)?;
    let decisions = decisions_in(alloc, job, table, outcomes)?;
    let reached = reached_in(alloc, job, table, outcomes)?;
    let withdrawn = withdrawn_in(alloc, job, table, outcomes)?;
    format!(in alloc; "{newly:?} {decisions} {reached:?} {withdrawn:?}")
}

fn decisions_in(
    alloc: Global,
    job: &Job,
    table: &TreeTable,
    outcomes: &[Option<Outcome>],
) -> Result<String, AllocError>
    requires { IsForestOf job.now table.now outcomes.now }
{
    let mut text = String::new(alloc);
    for number in 0..count_of(job.sequences().len()) {
        text.push_str(letter(table.decision(number)))?;
    }
    Ok(text)
}

fn letter(decision: Decision) -> &'static str {
    match decision {
        Decision::True => "T",
        Decision::False => "F",
        Decision::Undecided => "U",
    }
}

fn reached_in(
    alloc: Global,
    job: &Job,
    table: &TreeTable,
    outcomes: &[Option<Outcome>],
) -> Result<Vec<u16>, AllocError>
    requires { IsForestOf job.now table.now outcomes.now }
{
    let mut reached = Vec::new(alloc);
    for number in 0..count_of(outcomes.len()) {
        if table.reached(number) {
            reached.push(number)?;
        }
    }
    Ok(reached)
}

fn withdrawn_in(
    alloc: Global,
    job: &Job,
    table: &TreeTable,
    outcomes: &[Option<Outcome>],
) -> Result<Vec<u16>, AllocError>
    requires { IsForestOf job.now table.now outcomes.now }
{
    let mut withdrawn = Vec::new(alloc);
    for number in 0..count_of(outcomes.len()) {
        if table.withdrawn(number) {
            withdrawn.push(number)?;
        }
    }
    Ok(withdrawn)
}
