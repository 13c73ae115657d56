//! Standing back from a lock for which others wait already.
use crate::rule::{SERVING, TICKET};
use crate::{Kept, Turn};
use std::sync::Wait;
use std::thread::Parker;
use std::time::Duration;

// How many tickets aren't served where a thread comes back later: one is held, and two others wait.
const CROWD: u64 = 3;

// How long a thread stands back, in microseconds, for each time in a row that it found a crowd.
const PAUSE: u64 = 50;

// How many of these times count.
const MOST_TIMES: u32 = 16;

// How often a thread stands back before it draws a ticket all the same.
const MOST_PAUSES: u32 = 100;

impl<V: Kept> Turn<V> {
    // Sleeps while others wait for their turn, the longer the more often it found them. Tickets are served in their order,
    // so a thread that has drawn one and has no processor keeps all later ones waiting: where threads outnumber
    // processors, a long line moves no faster than the system's scheduler.
    pub(crate) fn stand_back<R: Wait>(&self, rt: &R) {
        for time in 1..=MOST_PAUSES {
            if self.waiting() < CROWD {
                return;
            }
            let micros = PAUSE * u64::from(time.min(MOST_TIMES));
            Parker::new().park_timeout(rt, Duration::from_micros(micros));
        }
    }

    /// How many passes hold the value or wait for their turn, as far as two looks tell. It takes no turn, and nothing is
    /// promised of it: it is for whoever would rather come back later.
    pub fn waiting(&self) -> u64 {
        let serving = self.table.shared.peek(SERVING);
        self.table.shared.peek(TICKET).wrapping_sub(serving)
    }
}
