//! The steps of one pass on the words of the lock: it draws a ticket, looks until that is served, raises the
//! count, and passes the turn on. A thread that waits sleeps after some looks, and then burns no processor.
ghost use Rattle.std.specs.Prelude.{◌≡◌, ℕ, ◌<◌, []};
ghost use Rattle.turn_lock.specs.declared.view.Stage.TheVariants.{Idle};
ghost use Rattle.turn_lock.specs.View.{staged};
ghost use Rattle.turn_lock.specs.Steps.{Awaits, GetsTicket, Takes, MayRaise, Counts, MayGoHome};

use crate::plays::{Draw, Look, PassOn, Raise};
use crate::rule::{COUNT, SERVING, TICKET};
use crate::view::Knows;
use crate::{Kept, Turn};
use atomic_table::Seat;
use std::hint;
use std::sync::Wait;

// How often a thread that waits looks before it sleeps. To be woken takes as long as some hundred turns.
const LOOKS: u32 = 2_000;

// How often one looks that is next in line, and would have to be woken at once.
const LAST_LOOKS: u32 = 50_000;

// The bits of a word on which threads sleep.
const LOW_HALF: u64 = 0xffff_ffff;

impl<V: Kept> Turn<V> {
    // Draws a ticket, and returns its remainder modulo 2 ^ 64.
    pub(crate) fn draw(&self, seat: &mut Seat<Option<V>, Knows<V::Item>>) -> u64
        requires table { seat.old.table_id ≡ self.now.table.shared.table_id }
        requires idle { seat.old.me.0.stage ≡ Idle }
        requires rights { 0 < seat.old.me.0.rights }
        ensures table { seat.new.table_id ≡ seat.old.table_id }
        ensures ticket { GetsTicket result seat.old.me seat.new.me }
    {
        self.table.shared.fetch_add::<Draw>(seat, TICKET, 1)
    }

    // Waits until the ticket is served. The slot is then out with the pass.
    pub(crate) fn wait<R: Wait>(
        &self,
        rt: &R,
        seat: &mut Seat<Option<V>, Knows<V::Item>>,
        ticket: u64,
    )
        requires table { seat.old.table_id ≡ self.now.table.shared.table_id }
        requires waits { Awaits ticket seat.old.me }
        ensures table { seat.new.table_id ≡ seat.old.table_id }
        ensures takes { (t : ℕ) × Takes V.list t seat.old.me seat.new.me }
    {
        let mut looks = 0;
        for _ in rt.forever() {
            let serving = self.table.shared.load::<Look>(seat, SERVING);
            if serving == ticket {
                return;
            }
            let most = if serving.wrapping_add(1) == ticket {
                LAST_LOOKS
            } else {
                LOOKS
            };
            if looks < most {
                looks += 1;
                hint::spin_loop();
            } else {
                self.sleep(rt, serving);
            }
        }
        unreachable!()
    }

    // Sleeps unless another ticket than `serving` is served by now. A thread waits for a ticket less than 2 ^ 32
    // ahead, so the low half of the word tells.
    fn sleep<R: Wait>(&self, rt: &R, serving: u64) {
        let low = (serving & LOW_HALF) as u32;
        self.table.shared.park(rt, SERVING, low);
    }

    // Counts the items that the holder added, none among them. The pass has then seen the value's history.
    pub(crate) fn raise(&self, seat: &mut Seat<Option<V>, Knows<V::Item>>, more: u64)
        requires table { seat.old.table_id ≡ self.now.table.shared.table_id }
        requires holds { MayRaise V.list more seat.old.me }
        ensures table { seat.new.table_id ≡ seat.old.table_id }
        ensures counts { Counts V.list more seat.old.me seat.new.me }
    {
        self.table.shared.fetch_add::<Raise>(seat, COUNT, more);
    }

    // Lets the next ticket be served, and gives the slot back.
    pub(crate) fn pass_on(&self, seat: &mut Seat<Option<V>, Knows<V::Item>>)
        requires table { seat.old.table_id ≡ self.now.table.shared.table_id }
        requires holds { MayGoHome V.list seat.old.me }
        ensures table { seat.new.table_id ≡ seat.old.table_id }
        ensures idle { seat.new.me.0 ≡ staged Idle seat.old.me.0 }
        ensures slots { seat.new.me.1 ≡ [] }
    {
        let served = self.table.shared.fetch_add::<PassOn>(seat, SERVING, 1);
        self.wake(served);
    }

    // Wakes all who sleep, if a ticket after `served` is drawn: they sleep on one word, and each looks whether it
    // is its turn. A ticket drawn later finds the new number at its first look.
    fn wake(&self, served: u64) {
        if self.table.shared.peek(TICKET) != served.wrapping_add(1) {
            self.table.shared.wake_all(SERVING);
        }
    }
}
