//! The seat of one slot.
ghost use Rattle.std.specs.Prelude.{◌≡◌, ◌+◌, ◌<◌, ◌≤◌, ℕ, Some, None, false, IfOk, IsSome, is_some, length, map, slice_get};
ghost use Rattle.event_flow.specs.Events.{IsFlowFor};
ghost use Rattle.event_flow.specs.Flow.{claim_in};
ghost use Rattle.event_flow.specs.Steps.{begun_with, completed_in, with_claim, without_claim};
ghost use Rattle.event_flow.specs.Told.{decisions_in, ends_in};
ghost use Rattle.event_slots.specs.Seats.{HasRoomFor};
ghost use Rattle.hive_model.specs.Results.{outcome_at};
ghost use Rattle.hive_model.specs.Valid.{IsValidJob};

use crate::guest::Guest;
use event_flow::{Flow, Held};
use hive_model::{Job, Outcome, Product};
use std::alloc::{AllocError, Global};
use std::marker::Model;

/// The seat of one slot: the flow of its event, and the event itself. The flow of an empty seat serves the
/// next event.
///
/// Contracts see the flow and the event's place in the input.
#[derive(Drop)]
pub(crate) struct Seat {
    flow: Flow,
    guest: Option<Guest>,
}

impl Model for Seat {
    ghost use Rattle.std.specs.Option.{option_map};
    ghost use Rattle.event_slots.specs.Seats.{IsHostOf};
    ghost use Rattle.event_slots.specs.Slots.{Seat as Shown};

    ghost Value = { Shown };

    ghost view = { λ it. record { flow = it.flow; place = option_map (λ guest. guest.place) it.guest } };

    ghost invariant = { λ it. IsHostOf it.flow it.guest };
}

impl Seat {
    /// An empty seat for the events of a job. The only error is that memory ran out.
    pub(crate) fn new(alloc: Global, job: &Job) -> Result<Seat, AllocError>
        requires { IsValidJob job.now }
        ensures place { IfOk result (λ it. it.place ≡ None) }
        ensures flow { IfOk result (λ it. IsFlowFor job.now it.flow) }
    {
        Ok(Seat {
            flow: Flow::new(alloc, job)?,
            guest: None,
        })
    }

    /// The event's place in the input, from 1; `None` where the seat is empty.
    pub(crate) fn place(&self) -> Option<u64>
        ensures { result ≡ self.now.place }
    {
        match &self.guest {
            Some(guest) => Some(guest.place),
            None => None,
        }
    }

    /// The flow of the event; where the seat is empty, of none.
    pub(crate) fn flow(&self) -> &Flow
        ensures { result.now ≡ self.now.flow }
    {
        &self.flow
    }

    /// An event takes the empty seat, with the cells of its record. It takes no memory.
    pub(crate) fn admit(&mut self, guest: Guest, cells: &[Option<Product>])
        requires empty { self.old.place ≡ None }
        requires room { HasRoomFor (length self.old.flow.sequences) (length self.old.flow.needs) guest }
        requires few { length cells.now ≤ length self.old.flow.arrived }
        ensures { self.new ≡ record {
          flow = begun_with self.old.flow (map is_some cells.now);
          place = Some guest.place;
        } }
    {
        self.flow.begin(cells);
        self.guest = Some(guest);
    }

    /// An algorithm of the event is claimed. It takes no memory.
    pub(crate) fn claim(&mut self, algorithm: u16, held: Held)
        requires within { algorithm < length self.old.flow.needs }
        requires free { claim_in self.old.flow algorithm ≡ None }
        ensures { self.new ≡ record self.old { flow = with_claim self.old.flow algorithm held } }
    {
        self.flow.claim(algorithm, held);
    }

    /// A claim comes back without having run. It takes no memory.
    pub(crate) fn put_back(&mut self, algorithm: u16)
        requires within { algorithm < length self.old.flow.needs }
        requires held { IsSome (claim_in self.old.flow algorithm) }
        ensures { self.new ≡ record self.old { flow = without_claim self.old.flow algorithm } }
    {
        self.flow.put_back(algorithm);
    }

    /// A claimed algorithm has run, and left so many outputs from a handle on. It takes no memory.
    pub(crate) fn complete(&mut self, algorithm: u16, outcome: &Outcome, first: u16, count: u16)
        requires within { algorithm < length self.old.flow.needs }
        requires held { IsSome (claim_in self.old.flow algorithm) }
        requires unrun { outcome_at self.old.flow.outcomes algorithm ≡ None }
        requires missing { (i : ℕ) → i < count
            → slice_get self.old.flow.arrived (first + i) ≡ Some false }
        ensures { self.new ≡ record self.old {
          flow = completed_in self.old.flow algorithm outcome.now first count;
        } }
    {
        self.flow.complete(algorithm, outcome, first, count);
    }

    /// The event leaves, with the decisions and ends of its result told. It takes no memory.
    pub(crate) fn retire(&mut self) -> Guest
        requires { IsSome self.old.place }
        ensures decisions { result.decisions.items ≡ decisions_in self.old.flow }
        ensures ends { result.ends.items ≡ ends_in self.old.flow }
        ensures seat { self.new ≡ record self.old { place = None } }
    {
        match self.guest.take() {
            Some(guest) => told(&self.flow, guest),
            None => unreachable!(),
        }
    }
}

// Tells the decisions and the ends into the room that the guest has for them.
fn told(flow: &Flow, guest: Guest) -> Guest
    requires { HasRoomFor (length flow.now.sequences) (length flow.now.needs) guest }
    ensures decisions { result.decisions.items ≡ decisions_in flow.now }
    ensures ends { result.ends.items ≡ ends_in flow.now }
{
    let mut guest = guest;
    flow.tell_decisions(&mut guest.decisions);
    flow.tell_ends(&mut guest.ends);
    guest
}
