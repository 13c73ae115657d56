//! Events end.
ghost use Rattle.std.specs.Prelude.{◌≡◌, ◌≤◌, ◌+◌, IsFalse, IsTrue};
ghost use Rattle.hall_loop.specs.Beside.{EndsBeside, HoldsNothing, IsBeside, deeds};
ghost use Rattle.hall_loop.specs.Window.{IsOwnAt};

use crate::hall_loop::HallLoop;
use hive_hall::Hall;
use scheduler_core::Finished;
use std::sync::Wait;

/// Whether an event ended.
#[derive(Clone, Copy, Debug, PartialEq, Eq)]
pub(crate) enum Ended {
    One,
    None,
    /// As [`Step::Lost`](crate::Step::Lost).
    Lost,
}

impl HallLoop {
    // Ends an event in which nothing can run any more, if there is one, and counts it. Its result waits then.
    pub(crate) fn end_one<R: Wait>(&mut self, rt: &R, hall: &Hall) -> Ended
        requires { IsBeside hall.now self.old }
        ensures says { EndsBeside hall.now self.old result self.new }
        ensures done { result ≡ Ended.One → 1 + deeds self.old.pass ≤ deeds self.new.pass }
        ensures grown { deeds self.old.pass ≤ deeds self.new.pass }
        ensures none_held { HoldsNothing hall.now self.old.pass → HoldsNothing hall.now self.new.pass }
        ensures beside { IsBeside hall.now self.new }
    {
        let Some(retired) = hall.retire(rt, &mut self.pass) else {
            return Ended::None;
        };
        let Finished {
            place,
            result: ended,
        } = retired;
        if !self.is_own(place) {
            return Ended::Lost;
        }
        let index = (place - self.handed - 1) as usize;
        self.counts.add(ended.status);
        self.waiting.put(index, ended);
        Ended::One
    }

    // Whether it can be the place of an event of its own that hasn't ended.
    fn is_own(&self, place: u64) -> bool
        ensures own { IsTrue result → IsOwnAt self.now.admitted self.now.handed self.now.counts.events place }
        ensures other { IsFalse result → IsOwnAt self.now.admitted self.now.handed self.now.counts.events place → ⊥ }
    {
        let above = self.handed < place;
        let known = place <= self.admitted;
        let fewer = u64::from(self.counts.events) < self.admitted;
        above & known & fewer
    }
}
