//! Results that wait in the queue, or are booked at once.
ghost use Rattle.std.specs.Prelude.{◌≡◌, ◌+◌, ◌↔◌, false, true, length};
ghost use Rattle.action_queue.specs.declared.limits.TheConstants.{MOST_WAITING};
ghost use Rattle.expr_code.specs.Claim.{IsOfJob};
ghost use Rattle.hive_hall.specs.Calls.{BookSays, PostSays, is_empty, is_queued};
ghost use Rattle.hive_hall.specs.Pass.{IsPassOf, job_of, passes_of, put, took};

use crate::answers::{Book, Post};
use crate::hall::Hall;
use crate::pass::Pass;
use expr_code::Done;
use scheduler_core::Give;
use std::sync::Wait;

impl Hall {
    /// Queues what an execution left, for whoever books it; where the queue is full, books it as `done`
    /// does. It takes no memory.
    pub fn post<R: Wait>(&self, rt: &R, pass: &mut Pass, value: Done) -> Post
        requires pass { IsPassOf self.now pass.old }
        requires of_job { IsOfJob (job_of self.now) value.claim }
        ensures pass { IsPassOf self.now pass.new }
        ensures says { PostSays self.now value result pass.old pass.new }
        ensures full { passes_of self.now ≡ 1 → (is_queued result ≡ false)
            ↔ (length (put pass.old) ≡ length (took pass.old) + MOST_WAITING) }
    {
        match self.queue.put(rt, &mut pass.queue, value) {
            Ok(()) => Post::Queued,
            Err(value) => match self.done(rt, pass, value) {
                Give::Booked => Post::Booked,
                Give::NotOutstanding(value) => Post::NotOutstanding(value),
            },
        }
    }

    /// Takes a result that waits in the queue, and books it as `done` does. It takes no memory.
    pub fn book<R: Wait>(&self, rt: &R, pass: &mut Pass) -> Book
        requires pass { IsPassOf self.now pass.old }
        ensures pass { IsPassOf self.now pass.new }
        ensures says { BookSays self.now result pass.old pass.new }
        ensures empty { passes_of self.now ≡ 1 → (is_empty result ≡ true)
            ↔ (length (put pass.old) ≡ length (took pass.old)) }
    {
        let Some(value) = self.queue.take(rt, &mut pass.queue) else {
            return Book::Empty;
        };
        match self.done(rt, pass, value) {
            Give::Booked => Book::Booked,
            Give::NotOutstanding(value) => Book::NotOutstanding(value),
        }
    }
}
