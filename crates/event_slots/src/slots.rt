//! The slots.
ghost use Rattle.std.specs.Prelude.{◌≡◌, ◌<◌, ◌≤◌, ℕ, List, Option, Some, None, Bool, true, false, IfOk, IsSome, IsTrue, ◌↔◌, IsSomeAnd, MatchOption, MatchResult, is_none, is_some, length, map, replicate, slice_get, slice_set};
ghost use Rattle.std.specs.Arc.{arc_value};
ghost use Rattle.std.specs.List.{list_all};
ghost use Rattle.std.specs.Option.{option_map, option_map_or};
ghost use Rattle.event_slots.specs.Attempts.{IsNextIn, TakenAt, TakenIn};
ghost use Rattle.event_slots.specs.Booking.{CanComplete, CanReturn, result_in};
ghost use Rattle.event_slots.specs.Claiming.{IsHeld, TakenFrom};
ghost use Rattle.event_slots.specs.Slots.{AreSlotsOf, Seat as Shown, busy_in, claims_out};
ghost use Rattle.event_slots.specs.Standings.{IsFirstOf};
ghost use Rattle.expr_code.specs.Claim.{left_with};
ghost use Rattle.hive_model.specs.Algorithm.{Algorithm as Body};
ghost use Rattle.hive_model.specs.Enabled.{inputs_in};
ghost use Rattle.hive_model.specs.Fits.{Fits};
ghost use Rattle.hive_model.specs.Job.{Job as Whole};
ghost use Rattle.hive_model.specs.Machine.{Busy, Outstanding, begun, claim_at};
ghost use Rattle.hive_model.specs.Step.{can_claim, completed, is_settled};
ghost use Rattle.hive_model.specs.Valid.{IsValidJob};
ghost use Rattle.hive_model.specs.declared.limits.TheConstants.{MOST_SLOTS};
ghost use Rattle.whiteboard.specs.Slots.{IsTaken, products_in};

use crate::admitting::{lay_cells, pack};
use crate::booking::{first_output, put_outputs};
use crate::borrowed::Borrowed;
use crate::borrowing::borrow;
use crate::ending::{status_of, take_out};
use crate::founding::{empty_seats, shared_bodies};
use crate::holding::{are_inputs, is_claim};
use crate::seat::Seat;
use crate::seats::{
    admit_at, are_empty, are_full, claim_at, claim_of, claims_in, complete_at, place_at,
    put_back_at, retire_at,
};
use crate::standing::{Standing, older, standing_at};
use crate::taken::Taken;
use clone_pools::Pools;
use event_flow::Held;
use expr_code::Claimed;
use hive_model::{Algorithm, EventRecord, EventResult, Job, Lent, Many, Outcome, Product};
use std::alloc::{AllocError, Global};
use std::marker::Model;
use std::sync::Arc;
use whiteboard::Whiteboard;

/// All slots of a scheduler, with the events in flight (docs/PROCESSING.md, "Claims").
///
/// Contracts see the shared algorithms, a seat for each slot, the whiteboard, the pools, and the order of the
/// events; and what these stand for is the list of the scheduler's slots.
#[derive(Drop)]
pub struct Slots {
    bodies: Vec<Arc<Algorithm>>,
    seats: Vec<Seat>,
    board: Whiteboard,
    pools: Pools,
    order: Vec<u8>,
}

impl Model for Slots {
    ghost use Rattle.std.specs.Prelude.{◌≤◌, length, map};
    ghost use Rattle.std.specs.Arc.{arc_value};
    ghost use Rattle.event_slots.specs.Slots.{Slots as Shown};
    ghost use Rattle.hive_model.specs.declared.limits.TheConstants.{MOST_SLOTS};

    ghost Value = { Shown };

    ghost view = { λ it. record {
      bodies = map arc_value it.bodies.items;
      seats = it.seats.items;
      board = it.board;
      pools = it.pools;
      order = it.order.items;
    } };

    ghost invariant = { λ it. length it.seats.items ≤ MOST_SLOTS };
}

impl Slots {
    /// So many empty slots for the events of a job, with all its instances. The only error is that memory
    /// ran out.
    pub fn new(alloc: Global, job: &Job, slots: u8) -> Result<Slots, AllocError>
        requires valid { IsValidJob job.now }
        requires some { 1 ≤ slots }
        requires few { slots ≤ MOST_SLOTS }
        ensures { IfOk result (AreSlotsOf job.now (replicate slots None)) }
    {
        let bodies = shared_bodies(alloc, job.algorithms())?;
        let seats = empty_seats(alloc, job, slots)?;
        let board = Whiteboard::new(alloc, slots, job.handles())?;
        let pools = Pools::new(alloc, job)?;
        Ok(Slots {
            bodies,
            seats,
            board,
            pools,
            order: Vec::new(alloc),
        })
    }

    /// The number of slots.
    pub fn len(&self) -> u8
        ensures { (job : Whole) (slots : List (Option Busy)) → AreSlotsOf job slots self.now
            → result ≡ length slots }
    {
        self.seats.len() as u8
    }

    /// Whether each slot has an event.
    pub fn is_full(&self) -> bool
        ensures { (job : Whole) (slots : List (Option Busy)) → AreSlotsOf job slots self.now
            → result ≡ list_all is_some slots }
    {
        are_full(self.seats.as_slice())
    }

    /// Whether no slot has an event.
    pub fn is_empty(&self) -> bool
        ensures { (job : Whole) (slots : List (Option Busy)) → AreSlotsOf job slots self.now
            → result ≡ list_all is_none slots }
    {
        are_empty(self.seats.as_slice())
    }

    /// The number of claims that are outstanding.
    pub fn outstanding(&self) -> u32
        ensures { (job : Whole) (slots : List (Option Busy)) → AreSlotsOf job slots self.now
            → result ≡ claims_out slots }
    {
        claims_in(self.seats.as_slice())
    }

    /// The place in the input of the event in a slot, from 1; `None` exactly where it has none.
    pub fn place(&self, slot: u8) -> Option<u64>
        ensures { (job : Whole) (slots : List (Option Busy)) → AreSlotsOf job slots self.now
            → result ≡ option_map (λ b. b.place) (busy_in slots slot) }
    {
        place_at(self.seats.as_slice(), slot)
    }

    /// Gives an empty slot to the event with that record, which stands at that place of the input. The only
    /// error is that memory ran out, and then all is as before.
    pub fn admit(
        &mut self,
        alloc: Global,
        job: &Job,
        place: u64,
        event: &EventRecord,
    ) -> Result<u8, AllocError>
        requires valid { IsValidJob job.now }
        requires fits { Fits job.now event.now }
        requires room { (slots : List (Option Busy)) × AreSlotsOf job.now slots self.old
            × (list_all is_some slots ≡ false) }
        ensures { (slots : List (Option Busy)) → AreSlotsOf job.now slots self.old
            → MatchResult result
            (λ slot. (slice_get slots slot ≡ Some None)
            × AreSlotsOf job.now (slice_set slots slot (Some (begun job.now place event.now))) self.new)
            (λ _. AreSlotsOf job.now slots self.new) }
    {
        let luggage = pack(alloc, job, place, event)?;
        self.order.reserve(1)?;
        match self.board.take_slot(luggage.store) {
            Ok(slot) => {
                lay_cells(&mut self.board, slot, luggage.cells);
                admit_at(&mut self.seats, slot, luggage.guest, event.cells());
                self.order.push_reserved(slot);
                Ok(slot)
            }
            Err(_) => unreachable!(),
        }
    }

    /// Claims an algorithm of the oldest event that has one which may be claimed, under that ticket. Where
    /// nothing is handed out all is as before.
    pub fn claim(&mut self, alloc: Global, job: &Job, ticket: u64) -> Taken
        requires valid { IsValidJob job.now }
        requires known { (slots : List (Option Busy)) × AreSlotsOf job.now slots self.old }
        ensures { (slots : List (Option Busy)) → AreSlotsOf job.now slots self.old
            → TakenFrom job.now slots ticket result self.new }
    {
        for at in 0..self.order.len() {
            let slot = self.order[at];
            match self.claim_in(alloc, job, ticket, slot) {
                Taken::Job(slot, claimed) => return Taken::Job(slot, claimed),
                Taken::Nothing => {}
                Taken::NoMemory => return Taken::NoMemory,
            }
        }
        Taken::Nothing
    }

    /// Whether the slot's event has that algorithm's claim outstanding, with that ticket, that instance and
    /// these inputs.
    pub fn holds(
        &self,
        job: &Job,
        slot: u8,
        ticket: u64,
        algorithm: u16,
        clone: Option<u8>,
        inputs: &[Arc<Product>],
    ) -> bool
        requires known { (slots : List (Option Busy)) × AreSlotsOf job.now slots self.now }
        ensures { (slots : List (Option Busy)) → AreSlotsOf job.now slots self.now
            → IsTrue result ↔ IsHeld job.now slots slot ticket algorithm clone (map arc_value inputs.now) }
    {
        if !self.holds_claim(slot, ticket, algorithm, clone) {
            return false;
        }
        self.holds_inputs(job, slot, algorithm, inputs)
    }

    /// Takes back what a claim of the slot's event has on loan, and the claim is as if it had never been.
    /// It takes no memory.
    pub fn give_back(&mut self, job: &Job, slot: u8, lent: Lent)
        requires known { (slots : List (Option Busy)) × AreSlotsOf job.now slots self.old
            × CanReturn job.now slots slot lent }
        ensures { (slots : List (Option Busy)) (b : Busy) (c : Outstanding)
            → AreSlotsOf job.now slots self.old → busy_in slots slot ≡ Some b
            → claim_at b lent.algorithm ≡ Some c → c.clone ≡ lent.clone
            → AreSlotsOf job.now
            (slice_set slots slot (Some (record b { claims = slice_set b.claims lent.algorithm None })))
            self.new }
    {
        let number = lent.algorithm;
        self.pools.give_back(lent);
        put_back_at(&mut self.seats, slot, number);
    }

    /// Books what an execution of the slot's event left, and takes back what it had on loan. It takes no
    /// memory.
    pub fn complete(
        &mut self,
        job: &Job,
        slot: u8,
        lent: Lent,
        outcome: &Outcome,
        outputs: Many<Arc<Product>>,
    )
        requires valid { IsValidJob job.now }
        requires known { (slots : List (Option Busy)) × AreSlotsOf job.now slots self.old
            × CanReturn job.now slots slot lent
            × CanComplete job.now slots slot lent.algorithm (left_with outcome.now outputs.items) }
        ensures { (slots : List (Option Busy)) (b : Busy) (a : Body) (c : Outstanding)
            → AreSlotsOf job.now slots self.old → busy_in slots slot ≡ Some b
            → claim_at b lent.algorithm ≡ Some c → c.clone ≡ lent.clone
            → slice_get job.now.algorithms lent.algorithm ≡ Some a
            → AreSlotsOf job.now
            (slice_set slots slot
            (Some (completed b lent.algorithm a (left_with outcome.now outputs.items)))) self.new }
    {
        let number = lent.algorithm;
        let first = first_output(job, number);
        let count = outputs.as_slice().len() as u16;
        put_outputs(&mut self.board, slot, first, outputs);
        self.pools.give_back(lent);
        complete_at(&mut self.seats, slot, number, outcome, first, count);
    }

    /// The slot of an event that has settled: nothing of it is outstanding, and nothing in it is enabled.
    /// `None` exactly where no event has.
    pub fn settled(&self, job: &Job) -> Option<u8>
        requires known { (slots : List (Option Busy)) × AreSlotsOf job.now slots self.now }
        ensures { (slots : List (Option Busy)) → AreSlotsOf job.now slots self.now
            → MatchOption result
            ((slot : ℕ) (b : Busy) → busy_in slots slot ≡ Some b → is_settled job.now b ≡ false)
            (λ slot. IsSomeAnd (busy_in slots slot) (λ b. is_settled job.now b ≡ true)) }
    {
        for at in 0..self.order.len() {
            let slot = self.order[at];
            if self.is_settled(slot) {
                return Some(slot);
            }
        }
        None
    }

    /// The result of the settled event in a slot, whose record has that event number. The slot is empty
    /// then. It takes no memory.
    pub fn retire(&mut self, job: &Job, slot: u8, number: u64) -> EventResult
        requires known { (slots : List (Option Busy)) × AreSlotsOf job.now slots self.old
            × IsSomeAnd (busy_in slots slot) (λ b. is_settled job.now b ≡ true) }
        ensures result { (slots : List (Option Busy)) (b : Busy) → AreSlotsOf job.now slots self.old
            → busy_in slots slot ≡ Some b → result ≡ result_in job.now b number }
        ensures slots { (slots : List (Option Busy)) (b : Busy) → AreSlotsOf job.now slots self.old
            → busy_in slots slot ≡ Some b → is_settled job.now b ≡ true
            → AreSlotsOf job.now (slice_set slots slot None) self.new }
    {
        let store = self.board.recycle(slot);
        let guest = retire_at(&mut self.seats, slot);
        take_out(&mut self.order, slot);
        EventResult {
            event: number,
            status: status_of(guest.ends.as_slice()),
            decisions: guest.decisions,
            ends: guest.ends,
            store,
        }
    }

    /// The claim with the least ticket among those that are outstanding; `None` exactly where none is.
    pub fn first_claim(&self, job: &Job) -> Option<Standing>
        requires known { (slots : List (Option Busy)) × AreSlotsOf job.now slots self.now }
        ensures { (slots : List (Option Busy)) → AreSlotsOf job.now slots self.now
            → MatchOption result
            ((slot number : ℕ) (b : Busy) → busy_in slots slot ≡ Some b → claim_at b number ≡ None)
            (λ it. IsSomeAnd (busy_in slots it.slot)
            (λ b. IsSomeAnd (claim_at b it.algorithm)
            (λ c. (c.ticket ≡ it.ticket) × (c.clone ≡ it.clone)))
            × ((slot number : ℕ) (b : Busy) (c : Outstanding) → busy_in slots slot ≡ Some b
            → claim_at b number ≡ Some c → it.ticket ≤ c.ticket)) }
    {
        let mut first = None;
        for at in 0..self.order.len() {
            first = older(first, self.first_of(self.order[at]));
        }
        first
    }

    // Claims the first algorithm of the slot's event that may be claimed.
    fn claim_in(&mut self, alloc: Global, job: &Job, ticket: u64, slot: u8) -> Taken
        requires valid { IsValidJob job.now }
        requires known { (slots : List (Option Busy)) × AreSlotsOf job.now slots self.old
            × (slot < length slots) }
        ensures { (slots : List (Option Busy)) → AreSlotsOf job.now slots self.old
            → TakenIn job.now slots ticket slot self.old result self.new }
    {
        let mut from = 0;
        while let Some(number) = self.next_in(slot, from) {
            match self.claim_number(alloc, job, ticket, slot, number) {
                Taken::Job(slot, claimed) => return Taken::Job(slot, claimed),
                Taken::Nothing => from = number + 1,
                Taken::NoMemory => return Taken::NoMemory,
            }
        }
        Taken::Nothing
    }

    // The first algorithm, not below `from`, that can be claimed in the slot's event.
    fn next_in(&self, slot: u8, from: u16) -> Option<u16>
        requires { slot < length self.now.seats }
        ensures { (job : Whole) (slots : List (Option Busy)) → AreSlotsOf job slots self.now
            → IsNextIn job slots slot from result }
    {
        let seat = &self.seats[usize::from(slot)];
        match seat.place() {
            Some(_place) => seat.flow().next_claimable(from),
            None => None,
        }
    }

    // Claims an algorithm that can be claimed in the slot's event, if the pools lend what it needs.
    fn claim_number(
        &mut self,
        alloc: Global,
        job: &Job,
        ticket: u64,
        slot: u8,
        number: u16,
    ) -> Taken
        requires valid { IsValidJob job.now }
        requires known { (slots : List (Option Busy)) × AreSlotsOf job.now slots self.old
            × (number < length job.now.algorithms)
            × IsSomeAnd (busy_in slots slot) (λ b. can_claim job.now b number ≡ true) }
        ensures { (slots : List (Option Busy)) → AreSlotsOf job.now slots self.old
            → IsSomeAnd (busy_in slots slot) (λ b. can_claim job.now b number ≡ true)
            → TakenAt job.now slots ticket slot number self.old result self.new }
    {
        let place = self.place_of(slot);
        let store = self.board.store(slot);
        let body = &self.bodies[usize::from(number)];
        match borrow(&mut self.pools, alloc, job, store, body, number, place) {
            Borrowed::Lent(body, lent) => {
                let held = Held {
                    ticket,
                    clone: lent.clone,
                };
                claim_at(&mut self.seats, slot, number, held);
                Taken::Job(slot, Claimed::new(ticket, place, body, lent))
            }
            Borrowed::NotFree => Taken::Nothing,
            Borrowed::NoMemory => Taken::NoMemory,
        }
    }

    // The place in the input of the slot's event.
    fn place_of(&self, slot: u8) -> u64
        requires { IsSomeAnd (slice_get self.now.seats slot) (λ seat. IsSome seat.place) }
        ensures { (seat : Shown) → slice_get self.now.seats slot ≡ Some seat → seat.place ≡ Some result }
    {
        match self.seats[usize::from(slot)].place() {
            Some(place) => place,
            None => unreachable!(),
        }
    }

    // Whether the slot's event has the algorithm's claim outstanding, with that ticket and that instance.
    fn holds_claim(&self, slot: u8, ticket: u64, algorithm: u16, clone: Option<u8>) -> bool
        ensures { (job : Whole) (slots : List (Option Busy)) → AreSlotsOf job slots self.now
            → (result ≡ true) ↔ IsSomeAnd (busy_in slots slot) (λ b. IsSomeAnd (claim_at b algorithm)
            (λ c. (c.ticket ≡ ticket) × (c.clone ≡ clone))) }
    {
        is_claim(
            claim_of(self.seats.as_slice(), slot, algorithm),
            ticket,
            clone,
        )
    }

    // Whether the slot's event has these inputs of an algorithm.
    fn holds_inputs(&self, job: &Job, slot: u8, algorithm: u16, inputs: &[Arc<Product>]) -> bool
        requires taken { IsTaken self.now.board slot }
        requires within { algorithm < length job.now.algorithms }
        ensures { (a : Body) → slice_get job.now.algorithms algorithm ≡ Some a
            → (result ≡ true)
            ↔ (map arc_value inputs.now ≡ inputs_in (products_in self.now.board slot) a.inputs) }
    {
        let handles = job.algorithms()[usize::from(algorithm)].inputs();
        are_inputs(self.board.store(slot), handles, inputs)
    }

    // Whether the slot has an event that is settled.
    fn is_settled(&self, slot: u8) -> bool
        requires { slot < length self.now.seats }
        ensures { (job : Whole) (slots : List (Option Busy)) → AreSlotsOf job slots self.now
            → result ≡ option_map_or (is_settled job) (busy_in slots slot) false }
    {
        let seat = &self.seats[usize::from(slot)];
        match seat.place() {
            Some(_place) => seat.flow().is_settled(),
            None => false,
        }
    }

    // The oldest claim of the slot's event.
    fn first_of(&self, slot: u8) -> Option<Standing>
        requires { slot < length self.now.seats }
        ensures { (job : Whole) (slots : List (Option Busy)) → AreSlotsOf job slots self.now
            → IsFirstOf slots slot result }
    {
        let seat = &self.seats[usize::from(slot)];
        match seat.place() {
            Some(_place) => standing_at(slot, seat.flow().first_claim()),
            None => None,
        }
    }
}
