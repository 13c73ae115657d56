//! Results that wait for their turn.
ghost use Rattle.std.specs.Prelude.{◌≡◌, ◌<◌, IfOk, Some, None, is_some, length, replicate, slice_set};
ghost use Rattle.event_loop.specs.Waiting.{TakesFirst, waiting_at};

use hive_model::EventResult;
use std::alloc::{AllocError, Global};
use std::collections::VecDeque;
use std::marker::Model;

/// The results that have come before their turn: one item for each place of a window, which moves on with
/// every result that is taken out (docs/PROCESSING.md, "The loop").
///
/// Contracts see the list of the items. Their number stays.
#[derive(Drop)]
pub struct Waiting(VecDeque<Option<EventResult>>);

impl Model for Waiting {
    ghost use Rattle.event_loop.specs.Waiting.{Waits};

    ghost Value = { Waits };

    ghost view = { λ it. it.0.items };
}

impl Waiting {
    /// A window of so many places, at none of which a result waits. The only error is that memory ran out.
    pub fn new(alloc: Global, count: usize) -> Result<Waiting, AllocError>
        ensures { IfOk result (λ it. it ≡ replicate count None) }
    {
        let mut items = VecDeque::with_capacity(alloc, count)?;
        for _ in 0..count {
            items.push_back_reserved(None);
        }
        Ok(Waiting(items))
    }

    /// Puts a result at an index of the window, from 0. It takes no memory.
    pub fn put(&mut self, index: usize, ended: EventResult)
        requires { index < length self.old }
        ensures { self.new ≡ slice_set self.old index (Some ended) }
    {
        self.0[index] = Some(ended);
    }

    /// Takes out the result of the first place, and the window moves on by one. `None` exactly where none
    /// waits there, which changes nothing. It takes no memory.
    pub fn take_first(&mut self) -> Option<EventResult>
        ensures { TakesFirst self.old result self.new }
    {
        if !self.has_first() {
            return None;
        }
        match self.0.pop_front() {
            Some(Some(ended)) => {
                self.0.push_back_reserved(None);
                Some(ended)
            }
            Some(None) => unreachable!(),
            None => unreachable!(),
        }
    }

    /// Whether the result of the first place waits.
    pub fn has_first(&self) -> bool
        ensures { result ≡ is_some (waiting_at self.now 0) }
    {
        match self.0.front() {
            Some(Some(_)) => true,
            Some(None) => false,
            None => false,
        }
    }
}
