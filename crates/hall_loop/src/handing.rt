//! Results go out, and nothing further comes.
ghost use Rattle.std.specs.Prelude.{◌≡◌, true};
ghost use Rattle.hall_loop.specs.Beside.{GoesOn, HoldsNothing, IsBeside, IsLost, TakesBeside};
ghost use Rattle.hive_hall.specs.Pass.{seen};
ghost use Rattle.hive_model.specs.History.{is_stopped};

use crate::hall_loop::HallLoop;
use hive_hall::Hall;
use hive_model::EventResult;
use std::sync::Wait;

impl HallLoop {
    // Hands out the result of the next record, if it waits.
    pub(crate) fn take(&mut self, hall: &Hall) -> Option<EventResult>
        requires { IsBeside hall.now self.old }
        ensures says { TakesBeside hall.now self.old result self.new }
        ensures pass { self.new.pass ≡ self.old.pass }
        ensures none_held { HoldsNothing hall.now self.old.pass → HoldsNothing hall.now self.new.pass }
        ensures beside { IsBeside hall.now self.new }
    {
        let ended = self.waiting.take_first()?;
        self.handed += 1;
        Some(ended)
    }

    /// Says that no further event comes. It takes no memory, and changes nothing where it was said before.
    pub fn last<R: Wait>(&mut self, rt: &R, hall: &Hall)
        requires { IsBeside hall.now self.old }
        ensures says { GoesOn self.old self.new }
        ensures closed { self.new.closed ≡ true }
        ensures none_held { HoldsNothing hall.now self.old.pass → HoldsNothing hall.now self.new.pass }
        ensures beside { IsBeside hall.now self.new }
    {
        let _said = hall.last(rt, &mut self.pass);
        self.closed = true;
    }

    /// Tells the workers to stop. It takes no memory.
    pub fn stop<R: Wait>(&mut self, rt: &R, hall: &Hall)
        requires { IsBeside hall.now self.old }
        ensures says { GoesOn self.old self.new }
        ensures lost { IsLost hall.now self.old → IsLost hall.now self.new }
        ensures stopped { is_stopped (seen self.new.pass) ≡ true }
        ensures none_held { HoldsNothing hall.now self.old.pass → HoldsNothing hall.now self.new.pass }
        ensures beside { IsBeside hall.now self.new }
    {
        let _said = hall.stop(rt, &mut self.pass);
    }
}
