//! The loop performs an algorithm itself, and makes its steps.
ghost use Rattle.std.specs.Prelude.{◌≡◌, ◌<◌, ◌≤◌, [], ◌∷◌, IfErr, IfOk};
ghost use Rattle.expr_code.specs.Claim.{IsOfJob};
ghost use Rattle.hall_loop.specs.Beside.{FindsNothing, GoesOn, HasCause, HasDone, HoldsNothing, HoldsOnly, IsBeside, StepSays, deeds};
ghost use Rattle.hive_hall.specs.Pass.{job_of, seen};

use crate::ending::Ended;
use crate::hall_loop::HallLoop;
use crate::step::Step;
use expr_code::{Claimed, Done, Steps, perform};
use hive_hall::{Ask, Hall};
use hive_workers::Gate;
use scheduler_core::{Claim, Give};
use std::alloc::{AllocError, Global};
use std::marker::Brand;
use std::sync::Wait;
use std::sync::ledger::{Blank, Ledger};
use std::thread::Parker;
use std::time::Duration;

// How long the loop rests where it found nothing to do, in microseconds.
const REST: u64 = 50;

impl HallLoop {
    /// Does one step (docs/PROCESSING.md, "The loop beside workers"): it hands out the result of the next record if its
    /// event has ended; else it ends an event in which nothing can run any more; else it performs one algorithm,
    /// between the gate's calls, or books what workers have performed.
    pub fn turn<R: Wait, G: Gate>(&mut self, rt: &R, alloc: Global, hall: &Hall, gate: &G) -> Step
        requires { IsBeside hall.now self.old }
        ensures says { StepSays hall.now self.old result self.new }
        ensures cause { HasCause hall.now result self.new }
        ensures done { HasDone 1 result self.old.pass self.new.pass }
        ensures none_held { HoldsNothing hall.now self.old.pass → HoldsNothing hall.now self.new.pass }
        ensures beside { IsBeside hall.now self.new }
    {
        if let Some(ended) = self.take(hall) {
            return Step::Result(ended);
        }
        match self.end_one(rt, hall) {
            Ended::One => Step::Went,
            Ended::None => self.run_one(rt, alloc, hall, gate),
            Ended::Lost => Step::Lost,
        }
    }

    // Performs an algorithm if one can be claimed, and books what waits.
    fn run_one<R: Wait, G: Gate>(&mut self, rt: &R, alloc: Global, hall: &Hall, gate: &G) -> Step
        requires { IsBeside hall.now self.old }
        ensures says { StepSays hall.now self.old result self.new }
        ensures cause { HasCause hall.now result self.new }
        ensures done { HasDone 1 result self.old.pass self.new.pass }
        ensures none_held { HoldsNothing hall.now self.old.pass → HoldsNothing hall.now self.new.pass }
        ensures beside { IsBeside hall.now self.new }
    {
        match hall.claim(rt, alloc, &mut self.pass) {
            Ask::Told(Claim::Job(work)) => self.run_claim(rt, alloc, hall, gate, work),
            Ask::Told(Claim::Idle { running: _ }) => self.wait(rt, hall),
            Ask::Told(Claim::Over) => Step::Over,
            Ask::Told(Claim::NoMemory) => Step::NoMemory,
            Ask::Stopped => Step::Over,
        }
    }

    // Nothing can be claimed: books what waits, or lets workers run.
    fn wait<R: Wait>(&mut self, rt: &R, hall: &Hall) -> Step
        requires beside { IsBeside hall.now self.old }
        requires nothing { FindsNothing hall.now (seen self.old.pass) }
        ensures says { StepSays hall.now self.old result self.new }
        ensures cause { HasCause hall.now result self.new }
        ensures done { HasDone 1 result self.old.pass self.new.pass }
        ensures none_held { HoldsNothing hall.now self.old.pass → HoldsNothing hall.now self.new.pass }
        ensures beside { IsBeside hall.now self.new }
    {
        if self.book_waiting(rt, hall) {
            return Step::Went;
        }
        rest(rt);
        Step::Idle
    }

    // Performs what was claimed, and books it with what waits. Where memory runs out, the claim is put back.
    fn run_claim<R: Wait, G: Gate>(
        &mut self,
        rt: &R,
        alloc: Global,
        hall: &Hall,
        gate: &G,
        work: Claimed,
    ) -> Step
        requires beside { IsBeside hall.now self.old }
        requires of_job { IsOfJob (job_of hall.now) work }
        ensures says { StepSays hall.now self.old result self.new }
        ensures cause { HasCause hall.now result self.new }
        ensures done { HasDone 0 result self.old.pass self.new.pass }
        ensures none_held { HoldsOnly hall.now self.old.pass (work ∷ [])
            → HoldsNothing hall.now self.new.pass }
        ensures beside { IsBeside hall.now self.new }
    {
        match perform_between::<G, Brand>(alloc, gate, work, Blank::new(1)) {
            Ok(done) => {
                self.enter_done(rt, hall, done);
                let _some = self.book_waiting(rt, hall);
                Step::Went
            }
            Err((work, _)) => {
                self.put_back(rt, hall, work);
                Step::NoMemory
            }
        }
    }

    fn enter_done<R: Wait>(&mut self, rt: &R, hall: &Hall, done: Done)
        requires beside { IsBeside hall.now self.old }
        requires of_job { IsOfJob (job_of hall.now) done.claim }
        ensures says { GoesOn self.old self.new }
        ensures done { deeds self.old.pass ≤ deeds self.new.pass }
        ensures none_held { HoldsOnly hall.now self.old.pass (done.claim ∷ [])
            → HoldsNothing hall.now self.new.pass }
        ensures beside { IsBeside hall.now self.new }
    {
        match hall.done(rt, &mut self.pass, done) {
            Give::Booked => {}
            Give::NotOutstanding(_done) => {}
        }
    }

    fn put_back<R: Wait>(&mut self, rt: &R, hall: &Hall, work: Claimed)
        requires beside { IsBeside hall.now self.old }
        requires of_job { IsOfJob (job_of hall.now) work }
        ensures says { GoesOn self.old self.new }
        ensures none_held { HoldsOnly hall.now self.old.pass (work ∷ [])
            → HoldsNothing hall.now self.new.pass }
        ensures beside { IsBeside hall.now self.new }
    {
        match hall.back(rt, &mut self.pass, work) {
            Give::Booked => {}
            Give::NotOutstanding(work) => {
                let _lent = work.into_lent();
            }
        }
    }
}

// Sleeps a moment. Whoever asks takes the lock, so a loop that asked again at once would keep the workers waiting that
// could give it something to do.
fn rest<R: Wait>(rt: &R) {
    Parker::new().park_timeout(rt, Duration::from_micros(REST));
}

// Performs a claim, between the gate's calls. The only error is that memory ran out, which hands the claim back.
fn perform_between<G: Gate, L: Ledger>(
    alloc: Global,
    gate: &G,
    work: Claimed,
    blank: Blank,
) -> Result<Done, (Claimed, AllocError)>
    requires name { blank.name ≡ L.name }
    requires parts { blank.parts ≡ L.parts }
    requires some { 0 < L.parts }
    ensures claim { IfOk result (λ it. it.claim ≡ work) }
    ensures handed_back { IfErr result (λ it. it.0 ≡ work) }
{
    let mut steps = Steps::<L>::new(blank);
    let (place, algorithm) = (work.place(), work.algorithm());
    gate.before(place, algorithm);
    let performed = perform(alloc, work, &mut steps);
    gate.after(place, algorithm);
    performed
}
