//! The shared scheduler: how it is opened, and how it is closed.
ghost use Rattle.std.specs.Prelude.{◌≡◌, ◌≤◌};
ghost use Rattle.hive_hall.specs.declared.limits.TheConstants.{MOST_PASSES};
ghost use Rattle.action_queue.specs.Passes.{passes_of as passes_of_queue};
ghost use Rattle.turn_lock.specs.Turn.{all_rights};

use crate::answers::Closed;
use crate::board::Board;
use crate::limits::MOST_PASSES;
use crate::opening::{deal, give, line};
use crate::pass::Pass;
use crate::room::Room;
use action_queue::Actions;
use hive_model::Many;
use scheduler_core::Desk;
use std::alloc::{AllocError, Global};
use std::sync::{Mutex, Wait};
use turn_lock::Turn;

// One that has the lock, and one that waits.
const CROWD: u64 = 2;

/// A scheduler core that several threads use, each by a [`Pass`](crate::Pass) of its own, and a queue for
/// results that wait to be booked (docs/PROMISES.md, "One legal history").
///
/// A call that takes the lock waits for its turn. It can't be dropped: `close` takes it apart.
pub struct Hall {
    pub(crate) turn: Turn<Board>,
    pub(crate) queue: Actions,
    // room for all passes of the queue, which ends with them; a pass of the queue is for one thread at a time, and a
    // hall is for all threads, so what is there for passes stands behind a lock, though none is ever taken of it
    pub(crate) room: Mutex<Room>,
    ghost rights: { all_rights turn ≡ passes_of_queue queue },
    ghost few: { passes_of_queue queue ≤ MOST_PASSES },
}

impl Hall {
    ghost use Rattle.std.specs.Prelude.{◌≡◌, ◌≤◌, All, IfErr, IfOk, None, length};
    ghost use Rattle.hive_model.specs.History.{history};
    ghost use Rattle.action_queue.specs.Passes.{left_of};
    ghost use Rattle.hive_hall.specs.declared.limits.TheConstants.{MOST_PASSES};
    ghost use Rattle.hive_hall.specs.Closing.{AreAllOf, AreNumbered, IsConserved, IsLast, IsNewIn};
    ghost use Rattle.hive_hall.specs.Hold.{IsBack, IsOut, IsTaken};
    ghost use Rattle.hive_hall.specs.Pass.{IsPassOf, job_of, opening_of, passes_of, slots_of};

    /// The hall over a desk, and all of its passes, so many, from 1 to [`MOST_PASSES`](crate::MOST_PASSES),
    /// in the order of their numbers. The only error is that memory ran out: the desk is then handed back.
    pub fn new(
        alloc: Global,
        desk: Desk,
        passes: u8,
    ) -> Result<(Hall, Many<Pass>), (Desk, AllocError)>
        requires some { 1 ≤ passes }
        requires few { passes ≤ MOST_PASSES }
        ensures opening { IfOk result (λ r. opening_of r.0 ≡ history desk None) }
        ensures job { IfOk result (λ r. job_of r.0 ≡ desk.job) }
        ensures slots { IfOk result (λ r. slots_of r.0 ≡ desk.slots) }
        ensures count { IfOk result (λ r. (passes_of r.0 ≡ passes) × (length r.1.items ≡ passes)) }
        ensures passes { IfOk result (λ r. All (IsNewIn r.0 desk) r.1.items) }
        ensures numbers { IfOk result (λ r. AreNumbered r.1.items) }
        ensures desk_returned { IfErr result (λ e. e.0 ≡ desk) }
    {
        let Ok((queue, dealt, made, room)) = line(alloc, &desk, passes) else {
            return Err((desk, AllocError));
        };
        let board = Board { desk, stop: None };
        board.known();
        match Turn::new(alloc, board, u32::from(passes)) {
            Ok((turn, first)) => Ok(deal(turn, first, queue, dealt, made, room, passes)),
            Err((Board { desk, stop: _ }, error)) => Err((desk, error)),
        }
    }

    /// Whether somebody waits for the lock, as far as a look tells. It takes no turn, and nothing is promised of it: a
    /// participant that isn't needed comes back later.
    pub fn is_crowded(&self) -> bool {
        self.turn.waiting() >= CROWD
    }

    /// Waits for the pass's turn, and takes what is behind the lock.
    pub(crate) fn enter<R: Wait>(&self, rt: &R, pass: &mut Pass) -> Board
        requires { IsPassOf self.now pass.old }
        ensures { IsTaken self.now pass.old result pass.new }
    {
        let board = self.turn.hold(rt, &mut pass.turn);
        board.known();
        board
    }

    /// Puts it back, with one item more in its history, or none.
    pub(crate) fn leave(&self, pass: &mut Pass, board: Board)
        requires { IsOut self.now pass.old board }
        ensures { IsBack self.now pass.old board pass.new }
    {
        board.known();
        self.turn.release(&mut pass.turn, board);
    }

    /// Takes the hall apart, with all of its passes: nobody uses it any more. It waits for nobody and takes
    /// no memory. The desk is as the last call left it, and the results that are left are its job's.
    pub fn close(self, passes: Many<Pass>) -> Closed
        requires all { AreAllOf self passes.items }
        ensures history { IsLast self passes.items result.desk }
        ensures left { IsConserved self passes.items (left_of result.left) }
    {
        let Hall { turn, queue, room } = self;
        let mut passes = passes;
        let Room { passes: room } = room.into_inner();
        let mut room = room;
        let Some(first) = passes.pop() else {
            unreachable!()
        };
        let mut all = first.turn;
        give(&mut room, first.queue);
        while let Some(pass) = passes.pop() {
            turn.join(&mut all, pass.turn);
            give(&mut room, pass.queue);
        }
        let board = turn.close(all);
        board.known();
        let Board { desk, stop: _ } = board;
        Closed {
            desk,
            left: queue.end(room),
        }
    }
}
