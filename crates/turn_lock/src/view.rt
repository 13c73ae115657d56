//! What a pass knows, and what the rule is told of the lock. These types are for the proofs alone: no value
//! of a view is made.
use std::collections::LinkedList;
use std::snapshot::Snapshot;

// Where a pass stands. Tickets are counted without end here, and their remainders modulo 2 ^ 64 in the words.
pub(crate) enum Stage<I> {
    Idle,
    // It drew this ticket.
    Waits(u64),
    // Its ticket, and the history that the value has or will have when it goes home.
    Holds(u64, LinkedList<I>),
}

pub(crate) struct Knows<I> {
    pub(crate) rights: u32,
    pub(crate) stage: Stage<I>,
    // A prefix of the history.
    pub(crate) seen: LinkedList<I>,
    // A prefix of the history that another pass had seen: the shorter one at the last `join`.
    pub(crate) told: LinkedList<I>,
    // The positions of the items that it added.
    pub(crate) own: LinkedList<u64>,
}

// What the lock was made with: the number of all rights, and the value.
#[derive(Drop)]
pub(crate) struct About<V> {
    pub(crate) rights: u32,
    pub(crate) value: Snapshot<V>,
}
