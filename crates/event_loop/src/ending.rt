//! One event ends.
ghost use Rattle.std.specs.Prelude.{◌≡◌};
ghost use Rattle.event_loop.specs.Running.{EndSays, IsRunning};

use crate::waiting::Waiting;
use report_text::Counts;
use scheduler_core::{Desk, Finished};

/// Ends an event in which nothing can run any more, if there is one, and counts it. Its result waits then.
pub(crate) fn end_one(
    desk: &mut Desk,
    waiting: &mut Waiting,
    counts: &mut Counts,
    handed: u64,
) -> bool
    requires { IsRunning desk.old waiting.old handed counts.old }
    ensures { EndSays desk.old result desk.new waiting.old waiting.new handed counts.old counts.new }
{
    let Some(retired) = desk.retire() else {
        return false;
    };
    let Finished {
        place,
        result: ended,
    } = retired;
    let index = (place - handed - 1) as usize;
    counts.add(ended.status);
    waiting.put(index, ended);
    true
}
