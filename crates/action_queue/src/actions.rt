//! The queue and its calls.
ghost use Rattle.std.specs.Prelude.{◌≡◌, ◌<◌, [], Some};
ghost use Rattle.std.specs.Arc.{arc_value};
ghost use Rattle.crossbeam_queue.specs.Passes.{ruled_capacity, view};
ghost use Rattle.action_queue.specs.declared.limits.TheConstants.{MOST_WAITING};
ghost use Rattle.action_queue.specs.View.{IsSeatOf, first, tally};

use crate::left::Left;
use crate::limits::MOST_WAITING;
use crate::pass::QueuePass;
use crate::plays::{Deal, Glue, Named, Naming, Puts, Settles, Takes};
use crate::rule::{Line, Seat};
use expr_code::Done;
use hive_model::{Job, Many};
use std::alloc::{AllocError, Global};
use std::marker::Brand;
use std::sync::{Arc, Wait};

/// A queue of results of one job, with room for [`MOST_WAITING`](crate::MOST_WAITING).
///
/// It is used by its passes alone, which may be in other threads (docs/PROMISES.md, "A queue that loses nothing").
#[derive(Drop)]
pub struct Actions {
    pub(crate) queue: Line,
    pub(crate) job: Arc<Job>,
    pub(crate) passes: u8,
    ghost sized: { ruled_capacity queue ≡ MOST_WAITING },
    ghost some: { 0 < passes },
}

impl Actions {
    ghost use Rattle.std.specs.Prelude.{[], ◌∷◌, ◌++◌, ◌+◌, length, All, IfOk, IfSome, IsErr, IsNone, MatchOption, MatchResult, ◌↔◌};
    ghost use Rattle.std.specs.Arc.{arc_value};
    ghost use Rattle.std.specs.List.{flat_map};
    ghost use Rattle.std.specs.List.Sorted.{IsPermutation};
    ghost use Rattle.expr_code.specs.Claim.{IsOfJob};
    ghost use Rattle.action_queue.specs.Passes.{job_of, passes_of, IsPassOf, IsUnused, put_of, took_of, left_of};

    /// The queue of that job, and all of its passes, so many. The only error is running out of memory.
    pub fn new(
        alloc: Global,
        job: Arc<Job>,
        passes: u8,
    ) -> Result<(Actions, Many<QueuePass>), AllocError>
        requires some { 0 < passes }
        ensures job { IfOk result (λ r. job_of r.0 ≡ arc_value job) }
        ensures passes { IfOk result (λ r. passes_of r.0 ≡ passes) }
        ensures count { IfOk result (λ r. length r.1.items ≡ passes) }
        ensures unused { IfOk result (λ r. All (λ p. IsPassOf r.0 p × IsUnused p) r.1.items) }
    {
        let mut dealt: Many<QueuePass> = Many::with_room(alloc, usize::from(passes))?;
        let (queue, mut seat) = Line::ruled(alloc, MOST_WAITING)?;
        named::<Brand>(&queue, &mut seat, &job, passes);
        for _ in 1..passes {
            let seat = queue.another::<Deal>(&mut seat);
            let Ok(()) = dealt.push(QueuePass { seat }) else {
                unreachable!()
            };
        }
        let Ok(()) = dealt.push(QueuePass { seat }) else {
            unreachable!()
        };
        Ok((Actions { queue, job, passes }, dealt))
    }

    /// Puts a result of the queue's job behind all that wait, or hands it back where the queue is full. It takes
    /// no memory.
    pub fn put<R: Wait>(&self, rt: &R, pass: &mut QueuePass, value: Done) -> Result<(), Done>
        requires pass { IsPassOf self.now pass.old }
        requires of_job { IsOfJob (job_of self.now) value.claim }
        ensures pass { IsPassOf self.now pass.new }
        ensures put { MatchResult result
            (λ _. put_of pass.new ≡ put_of pass.old ++ value ∷ [])
            (λ d. (d ≡ value) × (put_of pass.new ≡ put_of pass.old)) }
        ensures took { took_of pass.new ≡ took_of pass.old }
        ensures full { passes_of self.now ≡ 1 → IsErr result
            ↔ (length (put_of pass.old) ≡ length (took_of pass.old) + MOST_WAITING) }
    {
        self.queue.push_as::<Puts, R>(rt, &mut pass.seat, value)
    }

    /// Takes the oldest result, or gives `None` where the queue is empty. It takes no memory.
    pub fn take<R: Wait>(&self, rt: &R, pass: &mut QueuePass) -> Option<Done>
        requires pass { IsPassOf self.now pass.old }
        ensures pass { IsPassOf self.now pass.new }
        ensures of_job { IfSome result (λ d. IsOfJob (job_of self.now) d.claim) }
        ensures took { MatchOption result
            (took_of pass.new ≡ took_of pass.old)
            (λ d. took_of pass.new ≡ took_of pass.old ++ d ∷ []) }
        ensures put { put_of pass.new ≡ put_of pass.old }
        ensures in_order { passes_of self.now ≡ 1
            → IfSome result (λ d. (rest : _) × (put_of pass.old ≡ took_of pass.old ++ d ∷ rest)) }
        ensures empty { passes_of self.now ≡ 1
            → IsNone result ↔ (length (put_of pass.old) ≡ length (took_of pass.old)) }
    {
        self.queue.pop_as::<Takes, R>(rt, &mut pass.seat)
    }

    /// Ends the queue with all of its passes, and gives what is left. It waits for nobody and takes no memory.
    pub fn end(self, passes: Many<QueuePass>) -> Left
        requires all { length passes.items ≡ passes_of self }
        requires passes { All (IsPassOf self) passes.items }
        ensures conserved { IsPermutation
            (flat_map put_of passes.items)
            (flat_map took_of passes.items ++ left_of result) }
        ensures in_order { passes_of self ≡ 1
            → flat_map put_of passes.items ≡ flat_map took_of passes.items ++ left_of result }
        ensures of_job { All (λ d. IsOfJob (job_of self) d.claim) (left_of result) }
    {
        let mut passes = passes;
        let Some(first) = passes.pop() else {
            unreachable!()
        };
        let mut seat = first.seat;
        while let Some(pass) = passes.pop() {
            self.queue.absorb::<Glue>(&mut seat, pass.seat);
        }
        self.queue.learn_as::<Settles>(&mut seat);
        Left {
            queue: self.queue,
            seat,
        }
    }
}

// Tells the very first pass the queue's job and the number of passes, and gives it all parts.
fn named<J: Named>(queue: &Line, seat: &mut Seat, job: &Arc<Job>, passes: u8)
    requires some { 0 < passes }
    requires queue { IsSeatOf queue.now seat.old }
    requires first { view seat.old ≡ first }
    requires picked { (J.job ≡ Some (arc_value job.now)) × (J.made ≡ passes) }
    ensures queue { IsSeatOf queue.now seat.new }
    ensures view { view seat.new ≡ tally (Some (arc_value job.now)) passes passes [] [] 0 [] }
{
    let _ = queue.another::<Naming<J>>(seat);
}
