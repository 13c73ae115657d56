//! A participant's handle on the queue.
ghost use Rattle.std.specs.Prelude.{◌≡◌, ◌++◌};
ghost use Rattle.crossbeam_queue.specs.Passes.{view};

use crate::rule::Seat;

/// The right to use an [`Actions`](crate::Actions), for one thread at a time.
///
/// Contracts see the results that it put and those that it took, in order (`put_of`, `took_of`). With the passes
/// that were made with it the queue is ended, so a pass that is dropped keeps its queue from ever being ended.
#[derive(Drop)]
pub struct QueuePass {
    pub(crate) seat: Seat,
    ghost one: { (view seat).parts ≡ 1 },
    // The queue's only pass put what it took and what the queue holds.
    ghost in_order: { (view seat).made ≡ 1 → (view seat).put ≡ (view seat).took ++ (view seat).rest },
}
