//! What is called round an execution.

/// Is told of each execution before it begins and after it ended, on the worker's own thread and outside of
/// the lock, also where memory ran out in between.
///
/// Nothing is promised of when a call returns: a gate may hold an execution back, to show that two of them
/// stand between claim and result at one time. A place is that of the event in the input, from 1, and an
/// algorithm goes by its number in the job, from 0.
pub trait Gate: Sync {
    fn before(&self, place: u64, algorithm: u16);

    fn after(&self, place: u64, algorithm: u16);
}

/// Lets all through.
#[derive(Clone, Copy, Debug)]
pub struct NoGate;

impl Gate for NoGate {
    fn before(&self, _place: u64, _algorithm: u16) {}

    fn after(&self, _place: u64, _algorithm: u16) {}
}
