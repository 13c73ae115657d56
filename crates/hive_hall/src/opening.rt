//! How the passes of a hall are made.
ghost use Rattle.std.specs.Prelude.{◌≡◌, ◌+◌, ◌<◌, ◌≤◌, [], ◌∷◌, ◌++◌, All, IfOk, length};
ghost use Rattle.action_queue.specs.Passes.{job_of as job_of_queue};
ghost use Rattle.scheduler_core.specs.State.{IsDesk};
ghost use Rattle.hive_hall.specs.Closing.{AreNumbered};
ghost use Rattle.hive_hall.specs.declared.limits.TheConstants.{MOST_PASSES};
ghost use Rattle.hive_hall.specs.Dealing.{IsFirst, IsFresh, IsHallOf, IsLine, OpensLegally};

use crate::board::Board;
use crate::hall::Hall;
use crate::pass::Pass;
use crate::room::Room;
use action_queue::{Actions, QueuePass};
use hive_model::Many;
use scheduler_core::Desk;
use std::alloc::{AllocError, Global};
use std::sync::Mutex;
use turn_lock::{Turn, TurnPass};

// What a hall needs beside its lock: the queue of results, its passes, and room for the hall's passes.
pub(crate) fn line(
    alloc: Global,
    desk: &Desk,
    passes: u8,
) -> Result<(Actions, Many<QueuePass>, Many<Pass>, Room), AllocError>
    requires { 1 ≤ passes }
    ensures line { IfOk result (λ r. IsLine passes r.0 r.1 r.2) }
    ensures job { IfOk result (λ r. job_of_queue r.0 ≡ desk.now.job) }
    ensures desk { IfOk result (λ _. IsDesk desk.now) }
{
    let job = desk.share_job()?;
    let (queue, dealt) = Actions::new(alloc, job, passes)?;
    let made = Many::with_room(alloc, usize::from(passes))?;
    let room = Room::new(alloc)?;
    Ok((queue, dealt, made, room))
}

// Gives each pass a right of the lock and a pass of the queue.
pub(crate) fn deal(
    turn: Turn<Board>,
    first: TurnPass<Board>,
    queue: Actions,
    dealt: Many<QueuePass>,
    made: Many<Pass>,
    room: Room,
    passes: u8,
) -> (Hall, Many<Pass>)
    requires some { 1 ≤ passes }
    requires few { passes ≤ MOST_PASSES }
    requires lock { IsFirst passes turn first }
    requires line { IsLine passes queue dealt made }
    requires legal { OpensLegally turn queue }
    ensures hall { IsHallOf turn queue result.0 }
    ensures count { length result.1.items ≡ passes }
    ensures passes { All (IsFresh turn queue) result.1.items }
    ensures numbers { AreNumbered result.1.items }
{
    let mut first = first;
    let mut dealt = dealt;
    let mut made = made;
    for number in 0..passes - 1 {
        let Ok(right) = turn.split(&mut first) else {
            unreachable!()
        };
        let queue = next(&mut dealt);
        let pass = Pass {
            turn: right,
            queue,
            number,
        };
        give(&mut made, pass);
    }
    let last = Pass {
        turn: first,
        queue: next(&mut dealt),
        number: passes - 1,
    };
    give(&mut made, last);
    let hall = Hall {
        turn,
        queue,
        room: Mutex::new(room),
    };
    (hall, made)
}

// The next pass of the queue.
fn next(dealt: &mut Many<QueuePass>) -> QueuePass
    requires { 0 < length dealt.old.items }
    ensures pass { dealt.old.items ≡ dealt.new.items ++ result ∷ [] }
    ensures spare { dealt.new.spare ≡ dealt.old.spare + 1 }
{
    let Some(pass) = dealt.pop() else {
        unreachable!()
    };
    pass
}

// Adds to a list that has the room.
pub(crate) fn give<T: Drop>(list: &mut Many<T>, item: T)
    requires { 0 < list.old.spare }
    ensures items { list.new.items ≡ list.old.items ++ item ∷ [] }
    ensures spare { list.new.spare + 1 ≡ list.old.spare }
{
    let Ok(()) = list.push(item) else {
        unreachable!()
    };
}
