//! The rule that every step on the queue keeps.
use crate::view::Tally;
use crossbeam_queue::protocol::Protocol;
use crossbeam_queue::{Pass, RuledArrayQueue};
use expr_code::Done;

pub(crate) struct Fair;

impl Protocol<Done, Tally> for Fair {
    ghost use Rattle.action_queue.specs.View.{first};
    ghost use Rattle.action_queue.specs.Rule.{Ruled};

    ghost holds = { Ruled };

    ghost first = { first };
}

pub(crate) type Line = RuledArrayQueue<Done, Tally, Fair>;

pub(crate) type Seat = Pass<Done, Tally>;
