//! What stands behind the lock.
ghost use Rattle.std.specs.Prelude.{◌≡◌, ◌≤◌, length};
ghost use Rattle.std.specs.Option.{ForSome};
ghost use Rattle.hive_hall.specs.Legal.{stops_in};

use crate::answers::Ask;
use expr_code::{Claimed, Done};
use hive_model::{EventRecord, Item};
use scheduler_core::{Admit, Desk, Finished, Give, Said};
use std::alloc::Global;
use turn_lock::Kept;

/// The scheduler core, and where in its history the participants were told to stop. The list that it keeps
/// is that history. Each method is one step of it.
pub(crate) struct Board {
    pub(crate) desk: Desk,
    /// how many entries stood in the journal when it was said
    pub(crate) stop: Option<u64>,
    ghost inside: { ForSome stop (λ entries. entries ≤ length desk.journal) },
}

impl Kept for Board {
    ghost use Rattle.hive_model.specs.History.{history};

    type Item = Item;

    ghost list = { λ board. history board.desk board.stop };

    fn items(&self) -> u64 {
        self.desk.journal().len() as u64 + 1 + stops_in(self.stop)
    }
}

impl Board {
    ghost use Rattle.std.specs.Prelude.{◌≡◌, ◌<◌, ◌^◌};
    ghost use Rattle.expr_code.specs.Claim.{IsOfJob};
    ghost use Rattle.hive_model.specs.Fits.{Fits};
    ghost use Rattle.hive_model.specs.History.{history};
    ghost use Rattle.scheduler_core.specs.State.{IsDesk};
    ghost use Rattle.hive_hall.specs.Says.{AdmitHere, BackHere, ClaimHere, DoneHere};
    ghost use Rattle.hive_hall.specs.Says.{LastHere, RetireHere, StopHere};

    /// What is known of each board: its desk's journal is a run, and its history has fewer items than a
    /// number can count.
    pub(crate) fn known(&self)
        ensures desk { IsDesk self.now.desk }
        ensures fits { length (history self.now.desk self.now.stop) < 2 ^ 64 }
    {
        let _items = self.desk.journal().len() as u64 + 2;
    }

    pub(crate) fn admit(&mut self, alloc: Global, event: EventRecord) -> Admit
        requires desk { IsDesk self.old.desk }
        requires fits { Fits self.old.desk.job event }
        ensures { AdmitHere self.old.desk.job self.old.desk.slots event result
            (history self.old.desk self.old.stop) (history self.new.desk self.new.stop) }
    {
        self.desk.admit(alloc, event)
    }

    pub(crate) fn claim(&mut self, alloc: Global, worker: u8) -> Ask
        requires { IsDesk self.old.desk }
        ensures { ClaimHere self.old.desk.job self.old.desk.slots worker result
            (history self.old.desk self.old.stop) (history self.new.desk self.new.stop) }
    {
        if self.stop.is_some() {
            return Ask::Stopped;
        }
        Ask::Told(self.desk.claim(alloc, worker))
    }

    pub(crate) fn done(&mut self, value: Done) -> Give<Done>
        requires desk { IsDesk self.old.desk }
        requires of_job { IsOfJob self.old.desk.job value.claim }
        ensures { DoneHere self.old.desk.job self.old.desk.slots value result
            (history self.old.desk self.old.stop) (history self.new.desk self.new.stop) }
    {
        self.desk.done(value)
    }

    pub(crate) fn back(&mut self, value: Claimed) -> Give<Claimed>
        requires desk { IsDesk self.old.desk }
        requires of_job { IsOfJob self.old.desk.job value }
        ensures { BackHere self.old.desk.job self.old.desk.slots value result
            (history self.old.desk self.old.stop) (history self.new.desk self.new.stop) }
    {
        self.desk.back(value)
    }

    pub(crate) fn retire(&mut self) -> Option<Finished>
        requires { IsDesk self.old.desk }
        ensures { RetireHere self.old.desk.job self.old.desk.slots result
            (history self.old.desk self.old.stop) (history self.new.desk self.new.stop) }
    {
        self.desk.retire()
    }

    pub(crate) fn last(&mut self) -> Said
        requires { IsDesk self.old.desk }
        ensures { LastHere self.old.desk.job self.old.desk.slots result
            (history self.old.desk self.old.stop) (history self.new.desk self.new.stop) }
    {
        self.desk.last()
    }

    pub(crate) fn stop(&mut self) -> Said
        requires { IsDesk self.old.desk }
        ensures { StopHere self.old.desk.job self.old.desk.slots result
            (history self.old.desk self.old.stop) (history self.new.desk self.new.stop) }
    {
        if self.stop.is_some() {
            return Said::Before;
        }
        self.stop = Some(self.desk.journal().len() as u64);
        Said::Now
    }
}

// How many Stops stand in the history.
fn stops_in(stop: Option<u64>) -> u64
    ensures { result ≡ stops_in stop }
{
    match stop {
        Some(_) => 1,
        None => 0,
    }
}
