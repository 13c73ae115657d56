//! One algorithm is claimed, performed and booked.
ghost use Rattle.std.specs.Prelude.{◌≡◌, ◌<◌, IfErr, IfOk, OnErr, OnOk};
ghost use Rattle.event_loop.specs.Performing.{IsBooked, RunSays};
ghost use Rattle.event_loop.specs.Running.{IsQuiet, NoneEnds};
ghost use Rattle.expr_code.specs.Claim.{IsOfJob};
ghost use Rattle.hive_model.specs.Machine.{Machine};
ghost use Rattle.hive_model.specs.declared.entry.Entry.TheVariants as entry;
ghost use Rattle.scheduler_core.specs.Says.{IsOut, with_entry};
ghost use Rattle.scheduler_core.specs.State.{InState, IsDesk};

use crate::turn::Turn;
use expr_code::{Claimed, Done, Steps, perform};
use scheduler_core::{Claim, Desk, Give};
use std::alloc::{AllocError, Global};
use std::marker::Brand;
use std::sync::ledger::{Blank, Ledger};

/// Claims an algorithm as worker 0, performs it and books it. Where memory runs out in that, the claim is put
/// back.
pub(crate) fn run_one(alloc: Global, desk: &mut Desk) -> Turn
    requires desk { IsDesk desk.old }
    requires quiet { (m : Machine) × IsQuiet desk.old m }
    requires rests { NoneEnds desk.old }
    ensures says { RunSays desk.old result desk.new }
    ensures desk { IsDesk desk.new }
{
    match desk.claim(alloc, 0) {
        Claim::Job(work) => {
            let booked = book(alloc, desk, work);
            match booked {
                Ok(()) => Turn::Went,
                Err(_) => Turn::NoMemory,
            }
        }
        Claim::Idle { running: _ } => Turn::Idle,
        Claim::Over => Turn::Over,
        Claim::NoMemory => Turn::NoMemory,
    }
}

// Performs a claim and books it. Where memory runs out, the claim is put back.
fn book(alloc: Global, desk: &mut Desk, work: Claimed) -> Result<(), AllocError>
    requires of_job { IsOfJob desk.old.job work }
    requires out { InState desk.old (IsOut work) }
    ensures booked { OnOk result (IsBooked desk.old work desk.new) }
    ensures back { OnErr result (desk.new ≡ with_entry desk.old (entry.Back work.ticket)) }
    ensures desk { IsDesk desk.new }
{
    match spend::<Brand>(alloc, work, Blank::new(1)) {
        Ok(done) => {
            enter_done(desk, done);
            Ok(())
        }
        Err(work) => {
            put_back(desk, work);
            Err(AllocError)
        }
    }
}

// Performs a claim, or hands it back where memory ran out.
fn spend<L: Ledger>(alloc: Global, work: Claimed, blank: Blank) -> Result<Done, Claimed>
    requires name { blank.name ≡ L.name }
    requires parts { blank.parts ≡ L.parts }
    requires some { 0 < L.parts }
    ensures claim { IfOk result (λ it. it.claim ≡ work) }
    ensures handed_back { IfErr result (λ it. it ≡ work) }
{
    let mut steps = Steps::<L>::new(blank);
    match perform(alloc, work, &mut steps) {
        Ok(done) => Ok(done),
        Err((work, _)) => Err(work),
    }
}

fn enter_done(desk: &mut Desk, done: Done)
    requires of_job { IsOfJob desk.old.job done.claim }
    requires out { InState desk.old (IsOut done.claim) }
    ensures booked { desk.new ≡ with_entry desk.old (entry.Done done.claim.ticket done.left.outcome) }
    ensures desk { IsDesk desk.new }
{
    match desk.done(done) {
        Give::Booked => {}
        Give::NotOutstanding(_) => unreachable!(),
    }
}

fn put_back(desk: &mut Desk, work: Claimed)
    requires of_job { IsOfJob desk.old.job work }
    requires out { InState desk.old (IsOut work) }
    ensures back { desk.new ≡ with_entry desk.old (entry.Back work.ticket) }
    ensures desk { IsDesk desk.new }
{
    match desk.back(work) {
        Give::Booked => {}
        Give::NotOutstanding(_) => unreachable!(),
    }
}
