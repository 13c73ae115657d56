//! Numbers that lead back to themselves.
ghost use Rattle.std.specs.Prelude.{◌≡◌, ℕ, ◌<◌, true, false, None, IfOk, IfSome, OnOk, All, find, length, set};
ghost use Rattle.std.specs.List.{Contains, range_with_len};
ghost use Rattle.text_model.specs.Walks.{is_on_cycle, leads_within};
ghost use Rattle.graph_parts.specs.Following.{Follows, found_with};
ghost use Rattle.graph_parts.specs.Links.{AreWithin, links};

use crate::flags::filled;
use crate::order::is_ordered;
use std::alloc::{AllocError, Global};

/// The first number that lies on a cycle: it leads back to itself. The only error is running out of memory.
///
/// `next` holds, of each number, those that it leads to. Where there is no cycle this takes time linear in the numbers
/// and in what they lead to; where there is one, it goes out from each number before the first that lies on it.
pub fn first_on_cycle(alloc: Global, next: &[Vec<u16>]) -> Result<Option<usize>, AllocError>
    requires { AreWithin next.now }
    ensures first { IfOk result (λ found. found
        ≡ find (is_on_cycle (links next.now) (length next.now)) (range_with_len 0 (length next.now))) }
    ensures within { IfOk result (λ found. IfSome found (λ n. n < length next.now)) }
    // Where there is none, no number leads back to itself in any number of steps.
    ensures none { IfOk result (λ found. found ≡ None → (steps n : ℕ) → n < length next.now
        → leads_within (links next.now) steps n n ≡ false) }
{
    if is_ordered(alloc, next)? {
        return Ok(None);
    }
    for number in 0..next.len() {
        if leads_back(alloc, next, number)? {
            return Ok(Some(number));
        }
    }
    Ok(None)
}

// Whether a number leads to itself: it goes to all those that the number leads to, in the order in which it finds them.
fn leads_back(alloc: Global, next: &[Vec<u16>], from: usize) -> Result<bool, AllocError>
    requires within { AreWithin next.now }
    requires from { from < length next.now }
    ensures back { IfOk result (λ it. it ≡ is_on_cycle (links next.now) (length next.now) from) }
    ensures never { IfOk result (λ it. it ≡ false → (steps : ℕ) → leads_within (links next.now) steps from from ≡ false) }
{
    let mut seen = filled(alloc, false, next.len())?;
    seen[from] = true;
    let mut found = Vec::with_capacity(alloc, next.len())?;
    found.push(from)?;
    for at in 0..next.len() {
        if at >= found.len() {
            return Ok(false);
        }
        let number = found[at];
        if follow(next[number].as_slice(), from, &mut seen, &mut found)? {
            return Ok(true);
        }
    }
    Ok(false)
}

// Sees the targets, and puts those that are new behind those that were found, up to the number that is looked for.
fn follow(
    targets: &[u16],
    from: usize,
    seen: &mut Vec<bool>,
    found: &mut Vec<usize>,
) -> Result<bool, AllocError>
    requires { All (λ t. t < length seen.old.items) targets.now }
    ensures back { IfOk result (λ it. it ≡ true → Contains targets.now from) }
    ensures follows { IfOk result (λ it. it ≡ false
        → Follows targets.now from seen.old.items found.old.items seen.new.items found.new.items) }
{
    for target in targets {
        let target = *target as usize;
        if target == from {
            return Ok(true);
        }
        see(target, seen, found)?;
    }
    Ok(false)
}

// Sees a number, and puts it behind those that were found, if it is new.
fn see(number: usize, seen: &mut Vec<bool>, found: &mut Vec<usize>) -> Result<(), AllocError>
    requires { number < length seen.old.items }
    ensures seen { OnOk result (seen.new.items ≡ set seen.old.items number true) }
    ensures found { OnOk result (found.new.items ≡ found_with seen.old.items found.old.items number) }
{
    if !seen[number] {
        seen[number] = true;
        found.push(number)?;
    }
    Ok(())
}
