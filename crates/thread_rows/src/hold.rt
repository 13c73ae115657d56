//! Holding executions, so that they overlap.
use std::sync::atomic::{AtomicBool, AtomicU64, Ordering};
use std::thread;

/// Holds each execution until so many have begun. It loses patience after a while, and holds none from then on, so nothing
/// hangs where they never do: where one thread performs all, say, or the lock is held while an algorithm is performed.
#[derive(Drop)]
pub(crate) struct Hold {
    wanted: u64,
    // How often an execution lets other threads run before it goes on though too few have begun.
    patience: u64,
    begun: AtomicU64,
    // Whether one has gone on so.
    gave_up: AtomicBool,
}

impl Hold {
    pub(crate) fn new(wanted: u64, patience: u64) -> Hold {
        Hold {
            wanted,
            patience,
            begun: AtomicU64::new(0),
            gave_up: AtomicBool::new(false),
        }
    }

    /// Holds an execution that has begun.
    pub(crate) fn wait(&self) {
        self.begun.fetch_add(1, Ordering::SeqCst);
        for _time in 0..self.patience {
            if self.has_enough() || self.has_given_up() {
                return;
            }
            thread::yield_now();
        }
        if !self.has_enough() {
            self.gave_up.store(true, Ordering::SeqCst);
        }
    }

    /// Whether so many executions stood between claim and result at one time: they have begun, and none of them went on
    /// before.
    pub(crate) fn was_reached(&self) -> bool {
        self.has_enough() && !self.has_given_up()
    }

    fn has_given_up(&self) -> bool {
        self.gave_up.load(Ordering::SeqCst)
    }

    fn has_enough(&self) -> bool {
        self.begun.load(Ordering::SeqCst) >= self.wanted
    }
}
