//! Results that wait are booked, whoever performed them.
ghost use Rattle.std.specs.Prelude.{◌≡◌, ◌+◌, ◌≤◌, false, true, [], length};
ghost use Rattle.action_queue.specs.declared.limits.TheConstants.{MOST_WAITING};
ghost use Rattle.hive_hall.specs.Pass.{IsPassOf, passes_of, put, took};
ghost use Rattle.hive_hall.specs.declared.pass.Pass.{Pass as Participant};
ghost use Rattle.hive_workers.specs.Working.{CountsStrays, IsWorking, TakesAlone};

use crate::tally::Tally;
use action_queue::MOST_WAITING;
use hive_hall::{Book, Hall, Pass};
use std::sync::Wait;

// Books one result. False is answered where none waited.
fn book<R: Wait>(rt: &R, hall: &Hall, pass: &mut Pass, tally: &mut Tally) -> bool
    requires { IsPassOf hall.now pass.old }
    ensures pass { IsPassOf hall.now pass.new }
    ensures counts { CountsStrays tally.old tally.new }
    ensures working { (p : Participant) → IsWorking hall.now p [] tally.old pass.old
        → IsWorking hall.now p [] tally.new pass.new }
    ensures put { put pass.new ≡ put pass.old }
    ensures some { result ≡ true → TakesAlone hall.now pass.old pass.new }
    ensures none { result ≡ false → passes_of hall.now ≡ 1 → length (put pass.new) ≡ length (took pass.new) }
{
    match hall.book(rt, pass) {
        Book::Booked => true,
        Book::NotOutstanding(_done) => {
            tally.stray();
            true
        }
        Book::Empty => false,
    }
}

// Books what waits, but no more than the queue holds at once.
pub(crate) fn book_waiting<R: Wait>(rt: &R, hall: &Hall, pass: &mut Pass, tally: &mut Tally)
    requires { IsPassOf hall.now pass.old }
    ensures pass { IsPassOf hall.now pass.new }
    ensures counts { CountsStrays tally.old tally.new }
    ensures working { (p : Participant) → IsWorking hall.now p [] tally.old pass.old
        → IsWorking hall.now p [] tally.new pass.new }
    ensures put { put pass.new ≡ put pass.old }
    ensures empty { passes_of hall.now ≡ 1 → length (took pass.old) ≤ length (put pass.old)
        → length (put pass.old) ≤ length (took pass.old) + MOST_WAITING
        → length (put pass.new) ≡ length (took pass.new) }
{
    for _booked in 0..MOST_WAITING {
        if !book(rt, hall, pass, tally) {
            return;
        }
    }
}
