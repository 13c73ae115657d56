//! The calls that take the lock: each waits for its turn, does one step of the history, and gives the
//! desk's answer.
ghost use Rattle.std.specs.Prelude.{◌≡◌, IfSome};
ghost use Rattle.expr_code.specs.Claim.{IsOfJob};
ghost use Rattle.hive_model.specs.Fits.{Fits};
ghost use Rattle.hive_hall.specs.Calls.{Calls, QueuesNone, WorkIsOf};
ghost use Rattle.hive_hall.specs.Pass.{IsPassOf, job_of, number_of, slots_of};
ghost use Rattle.hive_hall.specs.Says.{AdmitHere, BackHere, ClaimHere, DoneHere};
ghost use Rattle.hive_hall.specs.Says.{LastHere, RetireHere, StopHere};

use crate::answers::Ask;
use crate::hall::Hall;
use crate::pass::Pass;
use expr_code::{Claimed, Done};
use hive_model::EventRecord;
use scheduler_core::{Admit, Finished, Give, Said};
use std::alloc::Global;
use std::sync::Wait;

impl Hall {
    /// Admits an event, as `Desk::admit` does. Where it wasn't admitted its record is handed back.
    pub fn admit<R: Wait>(
        &self,
        rt: &R,
        alloc: Global,
        pass: &mut Pass,
        event: EventRecord,
    ) -> Admit
        requires pass { IsPassOf self.now pass.old }
        requires fits { Fits (job_of self.now) event }
        ensures pass { IsPassOf self.now pass.new }
        ensures call { Calls (AdmitHere (job_of self.now) (slots_of self.now) event result)
            pass.old pass.new }
        ensures queue { QueuesNone pass.old pass.new }
    {
        let mut board = self.enter(rt, pass);
        let answer = board.admit(alloc, event);
        self.leave(pass, board);
        answer
    }

    /// Asks for an algorithm to perform, as `Desk::claim` does. The claim is entered under the pass's
    /// number. Once a Stop was said the answer is [`Ask::Stopped`](crate::Ask::Stopped), and the desk isn't
    /// asked.
    pub fn claim<R: Wait>(&self, rt: &R, alloc: Global, pass: &mut Pass) -> Ask
        requires pass { IsPassOf self.now pass.old }
        ensures pass { IsPassOf self.now pass.new }
        ensures call { Calls (ClaimHere (job_of self.now) (slots_of self.now) (number_of pass.old) result)
            pass.old pass.new }
        ensures queue { QueuesNone pass.old pass.new }
        ensures of_job { WorkIsOf (job_of self.now) result }
    {
        let mut board = self.enter(rt, pass);
        let answer = board.claim(alloc, pass.number);
        self.leave(pass, board);
        answer
    }

    /// Books what an execution left, as `Desk::done` does. It takes no memory.
    pub fn done<R: Wait>(&self, rt: &R, pass: &mut Pass, value: Done) -> Give<Done>
        requires pass { IsPassOf self.now pass.old }
        requires of_job { IsOfJob (job_of self.now) value.claim }
        ensures pass { IsPassOf self.now pass.new }
        ensures call { Calls (DoneHere (job_of self.now) (slots_of self.now) value result)
            pass.old pass.new }
        ensures queue { QueuesNone pass.old pass.new }
    {
        let mut board = self.enter(rt, pass);
        let answer = board.done(value);
        self.leave(pass, board);
        answer
    }

    /// Puts a claim back that wasn't performed, as `Desk::back` does. It takes no memory.
    pub fn back<R: Wait>(&self, rt: &R, pass: &mut Pass, value: Claimed) -> Give<Claimed>
        requires pass { IsPassOf self.now pass.old }
        requires of_job { IsOfJob (job_of self.now) value }
        ensures pass { IsPassOf self.now pass.new }
        ensures call { Calls (BackHere (job_of self.now) (slots_of self.now) value result)
            pass.old pass.new }
        ensures queue { QueuesNone pass.old pass.new }
    {
        let mut board = self.enter(rt, pass);
        let answer = board.back(value);
        self.leave(pass, board);
        answer
    }

    /// Ends an event in which nothing is outstanding and nothing can be claimed, as `Desk::retire` does. It
    /// takes no memory.
    pub fn retire<R: Wait>(&self, rt: &R, pass: &mut Pass) -> Option<Finished>
        requires pass { IsPassOf self.now pass.old }
        ensures pass { IsPassOf self.now pass.new }
        ensures call { Calls (RetireHere (job_of self.now) (slots_of self.now) result) pass.old pass.new }
        ensures queue { QueuesNone pass.old pass.new }
    {
        let mut board = self.enter(rt, pass);
        let answer = board.retire();
        self.leave(pass, board);
        answer
    }

    /// Says that no further event comes, as `Desk::last` does. It takes no memory.
    pub fn last<R: Wait>(&self, rt: &R, pass: &mut Pass) -> Said
        requires pass { IsPassOf self.now pass.old }
        ensures pass { IsPassOf self.now pass.new }
        ensures call { Calls (LastHere (job_of self.now) (slots_of self.now) result) pass.old pass.new }
        ensures queue { QueuesNone pass.old pass.new }
    {
        let mut board = self.enter(rt, pass);
        let answer = board.last();
        self.leave(pass, board);
        answer
    }

    /// Tells the participants to stop: from then on every `claim` answers so. No other call looks at it. It
    /// takes no memory.
    pub fn stop<R: Wait>(&self, rt: &R, pass: &mut Pass) -> Said
        requires pass { IsPassOf self.now pass.old }
        ensures pass { IsPassOf self.now pass.new }
        ensures call { Calls (StopHere (job_of self.now) (slots_of self.now) result) pass.old pass.new }
        ensures queue { QueuesNone pass.old pass.new }
    {
        let mut board = self.enter(rt, pass);
        let answer = board.stop();
        self.leave(pass, board);
        answer
    }
}
