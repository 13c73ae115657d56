//! An event in a slot, as a journal tells of it.
use hive_model::{End, EventResult, Outcome};
use std::alloc::{AllocError, Global};

/// An event in a slot: what it comes to alone, and which of its algorithms are done.
#[derive(Drop)]
pub(crate) struct InFlight<'a> {
    alone: &'a EventResult,
    done: Vec<bool>,
}

impl<'a> InFlight<'a> {
    pub(crate) fn new(alloc: Global, alone: &'a EventResult) -> Result<InFlight<'a>, AllocError> {
        Ok(InFlight {
            alone,
            done: vec![in alloc; false; alone.ends().len()]?,
        })
    }

    pub(crate) fn is_done(&self, algorithm: usize) -> bool {
        match self.done.get(algorithm) {
            Some(done) => *done,
            None => false,
        }
    }

    pub(crate) fn set_done(&mut self, algorithm: usize) {
        if algorithm < self.done.len() {
            self.done[algorithm] = true;
        }
    }

    /// Whether the event has a product there when all has run in it.
    pub(crate) fn ends_with(&self, handle: u16) -> bool {
        let alone = self.alone;
        alone.store.has(handle)
    }

    /// Whether the algorithm ends so in the event alone.
    pub(crate) fn ends_so(&self, algorithm: usize, outcome: Outcome) -> bool {
        match self.alone.ends().get(algorithm) {
            Some(end) => is_of(*end, outcome),
            None => false,
        }
    }

    /// Whether those algorithms are done that run in the event alone.
    pub(crate) fn is_complete(&self) -> bool {
        for (algorithm, end) in self.alone.ends().iter().enumerate() {
            if has_run(*end) != self.is_done(algorithm) {
                return false;
            }
        }
        true
    }
}

fn is_of(end: End, outcome: Outcome) -> bool {
    match outcome {
        Outcome::Accepted => end == End::Accepted,
        Outcome::Rejected => end == End::Rejected,
        Outcome::Failed(place, fault) => end == End::Failed(place, fault),
    }
}

/// Whether an algorithm that ends so has run.
pub(crate) fn has_run(end: End) -> bool {
    match end {
        End::Initial => false,
        End::ControlReady => false,
        End::Withdrawn => false,
        End::Accepted => true,
        End::Rejected => true,
        End::Failed(_, _) => true,
    }
}
