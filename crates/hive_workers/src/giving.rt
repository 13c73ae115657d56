//! A claim is performed, and handed in.
ghost use Rattle.std.specs.Prelude.{◌≡◌, ◌+◌, ◌≤◌, [], ◌∷◌, IfErr, IfOk};
ghost use Rattle.expr_code.specs.Claim.{IsOfJob};
ghost use Rattle.hive_hall.specs.Calls.{QueuesNone};
ghost use Rattle.hive_hall.specs.Pass.{IsPassOf, job_of};
ghost use Rattle.hive_hall.specs.declared.pass.Pass.{Pass as Participant};
ghost use Rattle.hive_workers.specs.Working.{Counts, HasRoom, IsWorking, QueuesAlone};
ghost use Rattle.hive_workers.specs.declared.limits.TheConstants.{MOST_COUNTED};

use crate::gate::Gate;
use crate::tally::Tally;
use expr_code::{Claimed, Done, Steps, perform};
use hive_hall::{Hall, Pass, Post};
use scheduler_core::Give;
use std::alloc::{AllocError, Global};
use std::sync::Wait;
use std::sync::ledger::Ledger;

// Performs a claim, between the gate's calls. The only error is that memory ran out, which hands the claim
// back.
pub(crate) fn perform_between<G: Gate, L: Ledger>(
    alloc: Global,
    gate: &G,
    claimed: Claimed,
    steps: &mut Steps<L>,
) -> Result<Done, (Claimed, AllocError)>
    ensures claim { IfOk result (λ it. it.claim ≡ claimed) }
    ensures handed_back { IfErr result (λ it. it.0 ≡ claimed) }
    ensures step { steps.new ≡ steps.old + 1 }
    ensures ticket { claimed.ticket ≤ MOST_COUNTED }
{
    // each claim has a ticket of its own, so the claims can be counted
    let _ticket = claimed.ticket();
    let (place, algorithm) = (claimed.place(), claimed.algorithm());
    gate.before(place, algorithm);
    let performed = perform(alloc, claimed, steps);
    gate.after(place, algorithm);
    performed
}

// Hands in what an execution left.
pub(crate) fn give<R: Wait>(rt: &R, hall: &Hall, pass: &mut Pass, tally: &mut Tally, done: Done)
    requires pass { IsPassOf hall.now pass.old }
    requires of_job { IsOfJob (job_of hall.now) done.claim }
    requires room { HasRoom tally.old }
    ensures pass { IsPassOf hall.now pass.new }
    ensures counts { Counts 0 tally.old tally.new }
    ensures working { (p : Participant) → IsWorking hall.now p (done.claim ∷ []) tally.old pass.old
        → IsWorking hall.now p [] tally.new pass.new }
    ensures alone { QueuesAlone hall.now tally.old tally.new pass.old pass.new }
{
    match hall.post(rt, pass, done) {
        Post::Queued => tally.give(),
        Post::Booked => tally.give(),
        Post::NotOutstanding(_done) => tally.hand_back(),
    }
}

// Puts a claim back for which memory ran out.
pub(crate) fn put_back<R: Wait>(
    rt: &R,
    hall: &Hall,
    pass: &mut Pass,
    tally: &mut Tally,
    claimed: Claimed,
)
    requires pass { IsPassOf hall.now pass.old }
    requires of_job { IsOfJob (job_of hall.now) claimed }
    requires room { HasRoom tally.old }
    ensures pass { IsPassOf hall.now pass.new }
    ensures counts { Counts 1 tally.old tally.new }
    ensures given { tally.new.given ≡ tally.old.given }
    ensures working { (p : Participant) → IsWorking hall.now p (claimed ∷ []) tally.old pass.old
        → IsWorking hall.now p [] tally.new pass.new }
    ensures queue { QueuesNone pass.old pass.new }
{
    match hall.back(rt, pass, claimed) {
        Give::Booked => tally.put_back(),
        Give::NotOutstanding(claimed) => {
            let _lent = claimed.into_lent();
            tally.hand_back();
        }
    }
}
