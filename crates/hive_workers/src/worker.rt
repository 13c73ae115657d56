//! The worker.
ghost use Rattle.std.specs.Prelude.{◌≡◌, ◌+◌};
ghost use Rattle.hive_hall.specs.Pass.{IsPassOf};
ghost use Rattle.hive_workers.specs.Worked.{HasWorked};

use crate::booking::book_waiting;
use crate::ends::{WorkerCause, WorkerEnd};
use crate::gate::Gate;
use crate::giving::{give, perform_between, put_back};
use crate::resting::{rest, stand_back};
use crate::tally::Tally;
use expr_code::Steps;
use hive_hall::{Ask, Hall, Pass};
use scheduler_core::Claim;
use std::alloc::Global;
use std::sync::Wait;
use std::sync::ledger::Ledger;

/// A participant of a hall that performs what there is to do.
#[derive(Clone, Copy, Debug)]
pub struct Worker;

impl Worker {
    pub fn new() -> Worker {
        Worker
    }

    /// Claims, performs and hands in, until every event has ended, the participants are told to stop, or
    /// memory runs out (docs/PROMISES.md, "Workers"). After each result it books what waits in the queue.
    /// Where nothing can be claimed it books, rests, and asks again; and where others wait for the hall's lock it comes
    /// back later, since they do what it would do. A claim for which
    /// memory ran out is put back, so no claim is held at the end.
    ///
    /// It counts each execution in `steps`. It waits for the hall's lock, and that it ever ends isn't
    /// promised.
    pub fn run<R: Wait, G: Gate, L: Ledger>(
        &self,
        rt: &R,
        alloc: Global,
        hall: &Hall,
        pass: &mut Pass,
        gate: &G,
        steps: &mut Steps<L>,
    ) -> WorkerEnd
        requires { IsPassOf hall.now pass.old }
        ensures pass { IsPassOf hall.now pass.new }
        ensures worked { HasWorked hall.now result pass.old pass.new }
        ensures steps { steps.new ≡ steps.old + result.performed }
    {
        let mut tally = Tally::new();
        let mut idle = 0u32;
        for _ in rt.forever() {
            idle = stand_back(rt, hall, idle);
            match hall.claim(rt, alloc, pass) {
                Ask::Told(Claim::Job(claimed)) => {
                    idle /= 2;
                    match perform_between(alloc, gate, claimed, steps) {
                        Ok(done) => give(rt, hall, pass, &mut tally, done),
                        Err((claimed, _)) => {
                            put_back(rt, hall, pass, &mut tally, claimed);
                            return tally.end(WorkerCause::NoMemory);
                        }
                    }
                    book_waiting(rt, hall, pass, &mut tally);
                }
                Ask::Told(Claim::Idle { running: _ }) => {
                    book_waiting(rt, hall, pass, &mut tally);
                    idle = idle.saturating_add(1);
                    rest(rt, idle);
                }
                Ask::Told(Claim::Over) => return tally.end(WorkerCause::Over),
                Ask::Told(Claim::NoMemory) => return tally.end(WorkerCause::NoMemory),
                Ask::Stopped => return tally.end(WorkerCause::Stopped),
            }
        }
        unreachable!()
    }
}
