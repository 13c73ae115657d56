//! Results that wait in the queue are booked.
ghost use Rattle.std.specs.Prelude.{◌≡◌, ◌≤◌, ◌+◌, IsFalse, cond};
ghost use Rattle.hall_loop.specs.Beside.{GoesOn, HoldsNothing, IsBeside, deeds};
ghost use Rattle.hive_hall.specs.Pass.{seen};

use crate::hall_loop::HallLoop;
use action_queue::MOST_WAITING;
use hive_hall::{Book, Hall};
use std::sync::Wait;

impl HallLoop {
    // Books one result. False is answered where none waited.
    pub(crate) fn book_one<R: Wait>(&mut self, rt: &R, hall: &Hall) -> bool
        requires { IsBeside hall.now self.old }
        ensures says { GoesOn self.old self.new }
        ensures done { cond result 1 0 + deeds self.old.pass ≤ deeds self.new.pass }
        ensures stays { IsFalse result → seen self.new.pass ≡ seen self.old.pass }
        ensures none_held { HoldsNothing hall.now self.old.pass → HoldsNothing hall.now self.new.pass }
        ensures beside { IsBeside hall.now self.new }
    {
        match hall.book(rt, &mut self.pass) {
            Book::Booked => true,
            Book::NotOutstanding(_done) => true,
            Book::Empty => false,
        }
    }

    // Books what waits, but no more than the queue holds at once. False is answered where nothing waited.
    pub(crate) fn book_waiting<R: Wait>(&mut self, rt: &R, hall: &Hall) -> bool
        requires { IsBeside hall.now self.old }
        ensures says { GoesOn self.old self.new }
        ensures done { cond result 1 0 + deeds self.old.pass ≤ deeds self.new.pass }
        ensures stays { IsFalse result → seen self.new.pass ≡ seen self.old.pass }
        ensures none_held { HoldsNothing hall.now self.old.pass → HoldsNothing hall.now self.new.pass }
        ensures beside { IsBeside hall.now self.new }
    {
        let mut some = false;
        for _booked in 0..MOST_WAITING {
            if !self.book_one(rt, hall) {
                return some;
            }
            some = true;
        }
        some
    }
}
