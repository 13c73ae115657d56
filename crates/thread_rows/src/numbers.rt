//! Numbers that look random, and are the same each time.

/// A linear congruential generator.
#[derive(Clone, Copy)]
pub(crate) struct Numbers {
    state: u64,
}

impl Numbers {
    /// The numbers that follow from a start.
    pub(crate) fn new(start: u64) -> Numbers {
        Numbers { state: start }
    }

    /// One of so many numbers, from 0; 0 where there is none.
    pub(crate) fn below(&mut self, count: u64) -> u64 {
        self.state = self
            .state
            .wrapping_mul(6_364_136_223_846_793_005)
            .wrapping_add(1_442_695_040_888_963_407);
        (self.state >> 33) % count.max(1)
    }
}
