//! What a pass knows. This type is for the proofs alone: no value of it is made.
use expr_code::Done;
use hive_model::Job;
use std::collections::LinkedList;

pub(crate) struct Tally {
    // The queue's job, and how many passes were made. The very first pass has yet to be told.
    pub(crate) job: Option<Job>,
    pub(crate) made: u8,
    // Its parts of the right to know the whole: who has as many as passes were made has all.
    pub(crate) parts: u8,
    // The results that it put and that it took, in order.
    pub(crate) put: LinkedList<Done>,
    pub(crate) took: LinkedList<Done>,
    // The number of its last step among all puts and takes, from 1, and what the queue held after it.
    pub(crate) time: u64,
    pub(crate) rest: LinkedList<Done>,
}
