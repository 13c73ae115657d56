//! A participant's handle.
use crate::board::Board;
use action_queue::QueuePass;
use turn_lock::TurnPass;

/// The right to use a [`Hall`](crate::Hall), for one thread at a time.
///
/// Contracts see which prefix of the history it has seen, the positions from 0 of the items that it added
/// (`own`), the results that it queued and those that it took (`put`, `took`), and its number
/// (docs/PROMISES.md, "One legal history"). With all of its passes a hall is closed, so a pass that is
/// dropped keeps its hall from ever being closed.
#[derive(Drop)]
pub struct Pass {
    pub(crate) turn: TurnPass<Board>,
    pub(crate) queue: QueuePass,
    pub(crate) number: u8,
}

impl Pass {
    ghost use Rattle.std.specs.Prelude.{◌≡◌};
    ghost use Rattle.hive_hall.specs.Pass.{number_of};

    /// The pass's number, from 0. Its claims are entered under it.
    pub fn number(&self) -> u8
        ensures { result ≡ number_of self.now }
    {
        self.number
    }
}
