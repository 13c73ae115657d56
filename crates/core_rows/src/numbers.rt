//! Numbers that look random, and are the same each time.
ghost use Rattle.std.specs.Prelude.{◌<◌, IfSome};

/// A linear congruential generator.
#[derive(Clone, Copy)]
pub(crate) struct Numbers {
    state: u64,
}

impl Numbers {
    /// The numbers that follow from a start.
    pub(crate) fn new(start: u64) -> Numbers {
        Numbers { state: start }
    }

    fn step(&mut self) {
        self.state = self
            .state
            .wrapping_mul(6_364_136_223_846_793_005)
            .wrapping_add(1_442_695_040_888_963_407);
    }

    /// One of so many numbers, from 0; 0 where there is none.
    pub(crate) fn below(&mut self, count: u64) -> u64 {
        self.step();
        (self.state >> 33) % count.max(1)
    }

    /// Whether it is the one case of so many.
    pub(crate) fn one_of(&mut self, count: u64) -> bool {
        self.below(count) == 0
    }

    /// One of so many indexes, or `None` where there is none.
    pub(crate) fn index(&mut self, count: usize) -> Option<usize>
        ensures { IfSome result (λ index. index < count) }
    {
        let index = self.below(count as u64) as usize;
        if index < count { Some(index) } else { None }
    }

    /// One of the words, or nothing where there is none.
    pub(crate) fn word<'a>(&mut self, words: &[&'a str]) -> &'a str {
        match self.index(words.len()) {
            Some(index) => words[index],
            None => "",
        }
    }
}
