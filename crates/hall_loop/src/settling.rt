//! The hall is closed when the workers have returned.
ghost use Rattle.std.specs.Prelude.{[], ◌∷◌, ◌++◌, All, IfErr, IfOk};
ghost use Rattle.action_queue.specs.Passes.{left_of};
ghost use Rattle.event_loop.specs.Loop.{IsLoop};
ghost use Rattle.expr_code.specs.Claim.{IsOfJob};
ghost use Rattle.hall_loop.specs.Beside.{IsBeside};
ghost use Rattle.hall_loop.specs.Others.{OthersWork};
ghost use Rattle.hall_loop.specs.Settled.{AreWorkersOf, BooksAll, BooksLeft, IsSettled, IsUnsettled, RecallsAll};
ghost use Rattle.hive_hall.specs.Closing.{IsConserved, IsLast};
ghost use Rattle.hive_hall.specs.Pass.{IsPassOf};
ghost use Rattle.scheduler_core.specs.State.{IsDesk};

use crate::hall_loop::HallLoop;
use action_queue::Left;
use event_loop::EventLoop;
use hive_hall::{Closed, Hall, Pass};
use hive_model::{Entry, Many};
use report_text::Counts;
use scheduler_core::{Desk, Give, Recall};
use std::alloc::{AllocError, Global};
use std::sync::Wait;

/// What is left where memory ran out.
#[derive(Drop)]
pub struct Unsettled {
    pub counts: Counts,
    pub journal: Many<Entry>,
}

/// Closes the hall, books the results that are left, puts back what is still outstanding, and gives the loop that goes
/// on with it on one thread. The only error is that memory ran out.
pub fn settle<R: Wait>(
    rt: &R,
    alloc: Global,
    hall: Hall,
    workers: Many<Pass>,
    events: HallLoop,
) -> Result<EventLoop, Unsettled>
    requires workers { AreWorkersOf hall workers }
    requires beside { IsBeside hall events }
    ensures settled { IfOk result (λ it. IsSettled hall events it) }
    ensures is_loop { IfOk result IsLoop }
    ensures unsettled { IfErr result (λ it. IsUnsettled hall events it.counts it.journal.items) }
    ensures left { IfOk result (λ it. BooksLeft hall (workers.items ++ events.pass ∷ []) it.desk.journal) }
    ensures left_too { IfErr result (λ it. BooksLeft hall (workers.items ++ events.pass ∷ []) it.journal.items) }
    ensures others { OthersWork hall events.pass }
{
    let HallLoop {
        pass,
        waiting,
        counts,
        slots: _,
        admitted: _,
        handed,
        closed,
    } = events;
    let Closed { desk, left } = close(hall, workers, pass);
    let (mut desk, mut left) = (desk, left);
    book_left(rt, &mut desk, &mut left);
    match recall_all(alloc, &mut desk) {
        Ok(()) => Ok(EventLoop::resume(desk, waiting, counts, handed, closed)),
        Err(_) => Err(Unsettled {
            counts,
            journal: desk.into_journal(),
        }),
    }
}

// Closes the hall with all of its passes.
fn close(hall: Hall, workers: Many<Pass>, pass: Pass) -> Closed
    requires workers { AreWorkersOf hall workers }
    requires pass { IsPassOf hall pass }
    ensures history { IsLast hall (workers.items ++ pass ∷ []) result.desk }
    ensures left { IsConserved hall (workers.items ++ pass ∷ []) (left_of result.left) }
{
    let mut passes = workers;
    let Ok(()) = passes.push(pass) else {
        unreachable!()
    };
    hall.close(passes)
}

// Books the results that are left, but for those of claims that aren't outstanding.
fn book_left<R: Wait>(rt: &R, desk: &mut Desk, left: &mut Left)
    requires desk { IsDesk desk.old }
    requires of_job { All (λ d. IsOfJob desk.old.job d.claim) (left_of left.old) }
    ensures booked { BooksAll desk.old (left_of left.old) desk.new }
    ensures desk { IsDesk desk.new }
{
    while let Some(done) = left.take(rt) {
        match desk.done(done) {
            Give::Booked => {}
            Give::NotOutstanding(_done) => {}
        }
    }
}

// Puts back what is outstanding.
fn recall_all(alloc: Global, desk: &mut Desk) -> Result<(), AllocError>
    requires desk { IsDesk desk.old }
    ensures says { RecallsAll desk.old result desk.new }
    ensures desk { IsDesk desk.new }
{
    'claims: loop {
        match desk.recall(alloc) {
            Recall::Put => {}
            Recall::Nothing => return Ok(()),
            Recall::NoMemory => return Err(AllocError),
        }
    }
}
