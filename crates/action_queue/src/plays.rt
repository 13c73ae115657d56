//! What each step on the queue tells its pass (`specs/Steps`). These types are for the proofs alone.
ghost use Rattle.std.specs.Prelude.{ℕ, [], Option, None};
ghost use Rattle.hive_model.specs.Job.{Job};
ghost use Rattle.action_queue.specs.View.{tally, kept, dealt, both, spent};
ghost use Rattle.action_queue.specs.Steps.{Put, Took, Knows, Settled};

use crate::view::Tally;
use crossbeam_queue::protocol::{Join, Lesson, Outcome, Split};
use expr_code::Done;
use std::marker::{Brand, PhantomData};

// The job and the number of passes that a queue is made with. The call that makes it picks them.
pub(crate) trait Named {
    ghost job: { Option Job };

    ghost made: { ℕ };
}

impl Named for Brand {
    ghost job = { None };

    ghost made = { 0 };
}

// The very first pass is told them. The pass beside it has no part, and is dropped.
pub(crate) struct Naming<J> {
    of: PhantomData<J>,
}

impl<J: Named> Split<Tally> for Naming<J> {
    ghost left = { λ v. tally J.job J.made J.made [] [] 0 [] };

    ghost right = { λ v. spent };
}

// One part goes to a new pass.
pub(crate) struct Deal;

impl Split<Tally> for Deal {
    ghost left = { kept };

    ghost right = { dealt };
}

// All that the second pass has goes to the first.
pub(crate) struct Glue;

impl Join<Tally> for Glue {
    ghost both = { both };

    ghost spent = { spent };
}

pub(crate) struct Puts;

impl Outcome<Done, Tally> for Puts {
    ghost then = { Put };
}

impl Lesson<Done, Tally> for Puts {
    ghost fact = { Knows };
}

pub(crate) struct Takes;

impl Outcome<Done, Tally> for Takes {
    ghost then = { Took };
}

impl Lesson<Done, Tally> for Takes {
    ghost fact = { Knows };
}

// All passes came back.
pub(crate) struct Settles;

impl Lesson<Done, Tally> for Settles {
    ghost fact = { Settled };
}
