//! What is left in a queue that was ended.
ghost use Rattle.std.specs.Prelude.{◌≡◌, ◌<◌};
ghost use Rattle.crossbeam_queue.specs.Passes.{view};
ghost use Rattle.action_queue.specs.View.{IsSeatOf};
ghost use Rattle.action_queue.specs.Steps.{IsWhole};

use crate::plays::Takes;
use crate::rule::{Line, Seat};
use expr_code::Done;
use std::sync::Wait;

/// The results that were put and weren't taken, oldest first (`left_of`).
#[derive(Drop)]
pub struct Left {
    pub(crate) queue: Line,
    pub(crate) seat: Seat,
    ghost of_queue: { IsSeatOf queue seat },
    ghost some: { 0 < (view seat).parts },
    ghost whole: { IsWhole (view seat) },
}

impl Left {
    ghost use Rattle.std.specs.Prelude.{[], ◌∷◌, MatchOption};
    ghost use Rattle.action_queue.specs.Passes.{left_of};

    /// The oldest result that is left, or `None` exactly where nothing is left. It takes no memory.
    pub fn take<R: Wait>(&mut self, rt: &R) -> Option<Done>
        ensures { MatchOption result
            ((left_of self.old ≡ []) × (left_of self.new ≡ []))
            (λ d. left_of self.old ≡ d ∷ left_of self.new) }
    {
        self.queue.pop_as::<Takes, R>(rt, &mut self.seat)
    }
}
