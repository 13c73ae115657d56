//! One of several threads at a queue.
use action_queue::QueuePass;
use expr_code::Done;

/// A worker puts results into a queue, or takes some out of it. It stands beside the tests, since a specification
/// speaks of it.
#[derive(Drop)]
pub struct Worker {
    pub pass: QueuePass,
    /// What it has yet to put, the next one last.
    pub results: Vec<Done>,
    /// How many it has yet to take.
    pub wants: usize,
    /// What it took.
    pub took: Vec<Done>,
}
