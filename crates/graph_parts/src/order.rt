//! Numbers in an order in which each stands behind all that it leads to.
ghost use Rattle.std.specs.Prelude.{◌≡◌, ◌<◌, ◌+◌, ◌^◌, ℕ, true, false, nat_lt, length, IfOk, OnOk};
ghost use Rattle.std.specs.List.{list_all};
ghost use Rattle.text_model.specs.Walks.{leads_within};
ghost use Rattle.graph_parts.specs.Links.{links};
ghost use Rattle.graph_parts.specs.Ranks.{AreRanked, is_placed as has_place};

use std::alloc::{AllocError, Global};

// A number to look at. The first time it goes back on the stack, below all that it leads to and that have no place
// yet; the second time it gets its place behind them.
#[derive(Clone, Copy, Drop)]
struct Visit {
    number: usize,
    is_second: bool,
}

/// Whether such an order was found, in time linear in the numbers and in what they lead to. Where it was, no number
/// leads back to itself. The only error is running out of memory.
pub(crate) fn is_ordered(alloc: Global, next: &[Vec<u16>]) -> Result<bool, AllocError>
    ensures { IfOk result (λ it. it ≡ true → (steps n : ℕ) → n < length next.now
        → leads_within (links next.now) steps n n ≡ false) }
{
    let mut ranks = vec![in alloc; 0; next.len()]?;
    let mut stack = first_visits(alloc, next.len())?;
    for turn in 0..most_turns(next) {
        let Some(visit) = stack.pop() else {
            return Ok(are_all_placed(ranks.as_slice()));
        };
        if visit.is_second {
            if !place(next, visit.number, turn, &mut ranks) {
                return Ok(false);
            }
        } else {
            open(next, visit.number, ranks.as_slice(), &mut stack)?;
        }
    }
    Ok(false)
}

// One for the first and one for the second visit of each number, one for each time that a number is led to, and one
// to see that the stack is empty.
fn most_turns(next: &[Vec<u16>]) -> usize {
    let mut turns: usize = 1;
    for targets in next {
        turns = turns.saturating_add(2).saturating_add(targets.len());
    }
    turns
}

fn first_visits(alloc: Global, count: usize) -> Result<Vec<Visit>, AllocError> {
    let mut stack = Vec::with_capacity(alloc, count)?;
    for number in 0..count {
        stack.push(Visit {
            number,
            is_second: false,
        })?;
    }
    Ok(stack)
}

// Puts a number that has no place back, and on top of it what it leads to.
fn open(
    next: &[Vec<u16>],
    number: usize,
    ranks: &[usize],
    stack: &mut Vec<Visit>,
) -> Result<(), AllocError> {
    if is_placed(ranks, number) {
        return Ok(());
    }
    stack.push(Visit {
        number,
        is_second: true,
    })?;
    if let Some(targets) = next.get(number) {
        push_targets(targets.as_slice(), ranks, stack)?;
    }
    Ok(())
}

fn push_targets(
    targets: &[u16],
    ranks: &[usize],
    stack: &mut Vec<Visit>,
) -> Result<(), AllocError> {
    for target in targets {
        let number = usize::from(*target);
        if !is_placed(ranks, number) {
            stack.push(Visit {
                number,
                is_second: false,
            })?;
        }
    }
    Ok(())
}

// Gives a number its place behind those that it leads to, and says whether all of these have one.
fn place(next: &[Vec<u16>], number: usize, turn: usize, ranks: &mut Vec<usize>) -> bool
    requires turn { turn + 1 < 2 ^ 64 }
    requires ranked { AreRanked next.now ranks.old.items turn }
    ensures { result ≡ true → AreRanked next.now ranks.new.items (turn + 1) }
{
    if is_placed(ranks.as_slice(), number) {
        return true;
    }
    let Some(targets) = next.get(number) else {
        return false;
    };
    if !are_placed(targets.as_slice(), ranks.as_slice()) {
        return false;
    }
    ranks[number] = turn + 1;
    true
}

fn are_placed(targets: &[u16], ranks: &[usize]) -> bool
    ensures { result ≡ list_all (has_place ranks.now) targets.now }
{
    targets
        .iter()
        .all(|target| is_placed(ranks, usize::from(*target)))
}

fn are_all_placed(ranks: &[usize]) -> bool
    ensures { result ≡ list_all (nat_lt 0) ranks.now }
{
    ranks.iter().all(|rank| *rank > 0)
}

fn is_placed(ranks: &[usize], number: usize) -> bool
    ensures { result ≡ has_place ranks.now number }
{
    match ranks.get(number) {
        Some(rank) => *rank > 0,
        None => false,
    }
}
