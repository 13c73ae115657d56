//! Claims that are held.
ghost use Rattle.std.specs.Prelude.{◌≡◌, ◌<◌, IfOk, IfSome, length};
ghost use Rattle.core_rows.specs.Hands.{AreOfJob};
ghost use Rattle.expr_code.specs.Claim.{IsOfJob};

use expr_code::{Claimed, Done, Steps, perform};
use hive_model::Job;
use std::alloc::{AllocError, Global};
use std::marker::Brand;
use std::sync::ledger::{Blank, Ledger};

/// The first claim with that ticket, which is held no longer.
pub(crate) fn take_held(job: &Job, held: &mut Vec<Claimed>, ticket: u64) -> Option<Claimed>
    requires { AreOfJob job.now held.old.items }
    ensures taken { IfSome result (IsOfJob job.now) }
    ensures held { AreOfJob job.now held.new.items }
{
    let index = index_of(held.as_slice(), ticket)?;
    Some(take_at(job, held, index))
}

/// The claim with that index, which is held no longer.
pub(crate) fn take_at(job: &Job, held: &mut Vec<Claimed>, index: usize) -> Claimed
    requires held { AreOfJob job.now held.old.items }
    requires there { index < length held.old.items }
    ensures taken { IsOfJob job.now result }
    ensures held { AreOfJob job.now held.new.items }
{
    held.remove(index)
}

/// Where the first claim with that ticket stands.
pub(crate) fn index_of(held: &[Claimed], ticket: u64) -> Option<usize>
    ensures { IfSome result (λ index. index < length held.now) }
{
    for (index, claimed) in held.iter().enumerate() {
        if claimed.ticket() == ticket {
            return Some(index);
        }
    }
    None
}

/// Holds a claim. Where there is no memory for that, it is let go.
pub(crate) fn hold(job: &Job, held: &mut Vec<Claimed>, claimed: Claimed) -> Result<(), AllocError>
    requires held { AreOfJob job.now held.old.items }
    requires of_job { IsOfJob job.now claimed }
    ensures { AreOfJob job.now held.new.items }
{
    match held.push(claimed) {
        Ok(()) => Ok(()),
        Err(failed) => {
            let _lent = failed.value.into_lent();
            Err(AllocError)
        }
    }
}

/// The claim, performed. Where there is no memory for that, it is let go.
pub(crate) fn performed(alloc: Global, claimed: Claimed) -> Result<Done, AllocError>
    ensures { IfOk result (λ it. it.claim ≡ claimed) }
{
    spend::<Brand>(alloc, claimed, Blank::new(1))
}

fn spend<L: Ledger>(alloc: Global, claimed: Claimed, blank: Blank) -> Result<Done, AllocError>
    requires name { blank.name ≡ L.name }
    requires parts { blank.parts ≡ L.parts }
    requires some { 0 < L.parts }
    ensures { IfOk result (λ it. it.claim ≡ claimed) }
{
    let mut steps = Steps::<L>::new(blank);
    match perform(alloc, claimed, &mut steps) {
        Ok(done) => Ok(done),
        Err((claimed, error)) => {
            let _lent = claimed.into_lent();
            Err(error)
        }
    }
}
