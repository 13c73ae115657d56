//! A worker that isn't needed rests.
use hive_hall::Hall;
use std::sync::Wait;
use std::thread::Parker;
use std::time::Duration;

// How long a worker rests, in microseconds, for each time in a row that it wasn't needed.
const REST: u64 = 50;

// How many of these times count.
const MOST_IDLE: u32 = 16;

// How often a worker stands back before it asks all the same.
const MOST_STANDING: u32 = 1_000;

// Sleeps, the longer the more often it wasn't needed. A worker that asked at once would keep others from the lock, and
// one that only let other threads run would fall behind them, and keep them waiting when it has drawn its ticket.
pub(crate) fn rest<R: Wait>(rt: &R, idle: u32) {
    let micros = REST.saturating_mul(u64::from(idle.min(MOST_IDLE)));
    Parker::new().park_timeout(rt, Duration::from_micros(micros));
}

// Rests while others wait for the lock already: where executions are shorter than handing the lock over, few participants
// get more done than many. Gives how often it wasn't needed by then.
pub(crate) fn stand_back<R: Wait>(rt: &R, hall: &Hall, idle: u32) -> u32 {
    let mut idle = idle;
    for _ in 0..MOST_STANDING {
        if !hall.is_crowded() {
            return idle;
        }
        idle = idle.saturating_add(1);
        rest(rt, idle);
    }
    idle
}
