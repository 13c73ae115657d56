//! Claims by algorithm, and what can be claimed next.
ghost use Rattle.std.specs.Prelude.{◌≡◌, ◌≤◌, ℕ, None, IfOk, is_some, length, replicate};
ghost use Rattle.hive_model.specs.declared.limits.TheConstants.{MOST_ALGORITHMS};
ghost use Rattle.number_set.specs.Numbers.{has};
ghost use Rattle.event_flow.specs.Claims.{IsLeast, IsNextLive, claim_among, earlier};

use crate::held::Held;
use algo_states::StateTable;
use decision_nodes::TreeTable;
use number_set::NumberSet;
use std::alloc::{AllocError, Global};

/// So many algorithms, none of them claimed.
pub(crate) fn no_claims(alloc: Global, count: usize) -> Result<Vec<Option<Held>>, AllocError>
    ensures { IfOk result (λ it. it.items ≡ replicate count None) }
{
    vec![in alloc; None; count]
}

/// The claim of an algorithm.
pub(crate) fn claim_at(claims: &[Option<Held>], number: u16) -> Option<Held>
    ensures { result ≡ claim_among claims.now number }
{
    match claims.get(usize::from(number)) {
        Some(claim) => *claim,
        None => None,
    }
}

/// The claim with the least ticket, where the set has the algorithms that are claimed.
pub(crate) fn least_claim(claims: &[Option<Held>], claimed: &NumberSet) -> Option<(u16, Held)>
    requires { (n : ℕ) → has claimed.now n ≡ is_some (claim_among claims.now n) }
    ensures { IsLeast claims.now result }
{
    let mut least: Option<(u16, Held)> = None;
    let mut from = 0;
    while let Some(number) = claimed.first_from(from) {
        if let Some(held) = claim_at(claims, number) {
            least = earlier(least, number, held);
        }
        from = number + 1;
    }
    least
}

fn earlier(first: Option<(u16, Held)>, number: u16, held: Held) -> Option<(u16, Held)>
    ensures { result ≡ earlier first number held }
{
    match first {
        None => Some((number, held)),
        Some(it) => {
            if held.ticket < it.1.ticket {
                Some((number, held))
            } else {
                Some(it)
            }
        }
    }
}

/// The least algorithm, not below `from`, that is ready and isn't withdrawn.
pub(crate) fn next_live(tree: &TreeTable, states: &StateTable, from: u16) -> Option<u16>
    requires few { length states.now.needs ≤ MOST_ALGORITHMS }
    requires sizes { length tree.now.outcomes ≡ length states.now.needs }
    ensures { IsNextLive tree.now states.now from result }
{
    let mut at = from;
    while let Some(number) = states.next_ready(at) {
        if !tree.withdrawn(number) {
            return Some(number);
        }
        at = number + 1;
    }
    None
}
