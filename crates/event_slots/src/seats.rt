//! The seats of all slots.
ghost use Rattle.std.specs.Prelude.{◌≡◌, ◌+◌, ◌*◌, ◌<◌, ◌≤◌, ℕ, Some, None, false, IsSome, IsSomeAnd, is_none, is_some, length, map, slice_get, slice_set};
ghost use Rattle.std.specs.List.{list_all, sum_by};
ghost use Rattle.std.specs.Option.{option_and_then};
ghost use Rattle.event_flow.specs.Flow.{claim_in};
ghost use Rattle.event_flow.specs.Steps.{begun_with, completed_in, with_claim, without_claim};
ghost use Rattle.event_flow.specs.Told.{decisions_in, ends_in};
ghost use Rattle.event_slots.specs.Seats.{CanFinish, HasRoomFor, is_seated, place_in, seated_claim, seated_claims};
ghost use Rattle.event_slots.specs.Slots.{Seat as Shown};
ghost use Rattle.hive_model.specs.declared.limits.TheConstants.{MOST_SLOTS};

use crate::guest::Guest;
use crate::seat::Seat;
use event_flow::Held;
use hive_model::{Outcome, Product};

/// Whether each seat has an event.
pub(crate) fn are_full(seats: &[Seat]) -> bool
    ensures { result ≡ list_all is_seated seats.now }
{
    for seat in seats {
        if seat.place().is_none() {
            return false;
        }
    }
    true
}

/// Whether no seat has an event.
pub(crate) fn are_empty(seats: &[Seat]) -> bool
    ensures { result ≡ list_all (λ seat. is_none seat.place) seats.now }
{
    for seat in seats {
        if seat.place().is_some() {
            return false;
        }
    }
    true
}

/// The number of claims that are outstanding in all events.
pub(crate) fn claims_in(seats: &[Seat]) -> u32
    requires { length seats.now ≤ MOST_SLOTS }
    ensures { result ≡ sum_by seated_claims seats.now }
{
    let mut claims = 0;
    for seat in seats {
        claims += u32::from(claims_at(seat));
    }
    claims
}

fn claims_at(seat: &Seat) -> u16
    ensures { result ≡ seated_claims seat.now }
{
    match seat.place() {
        Some(_place) => seat.flow().outstanding(),
        None => 0,
    }
}

/// The place in the input of the event in a seat, from 1; `None` where the seat is empty, or there is none.
pub(crate) fn place_at(seats: &[Seat], slot: u8) -> Option<u64>
    ensures { result ≡ option_and_then place_in (slice_get seats.now slot) }
{
    match seats.get(usize::from(slot)) {
        Some(seat) => seat.place(),
        None => None,
    }
}

/// The claim of an algorithm that is outstanding in the event in a seat, if there is one.
pub(crate) fn claim_of(seats: &[Seat], slot: u8, algorithm: u16) -> Option<Held>
    ensures { result ≡ option_and_then (seated_claim algorithm) (slice_get seats.now slot) }
{
    match seats.get(usize::from(slot)) {
        Some(seat) => claim_in(seat, algorithm),
        None => None,
    }
}

fn claim_in(seat: &Seat, algorithm: u16) -> Option<Held>
    ensures { result ≡ seated_claim algorithm seat.now }
{
    match seat.place() {
        Some(_place) => seat.flow().claim_of(algorithm),
        None => None,
    }
}

/// An event takes an empty seat, with the cells of its record. It takes no memory.
pub(crate) fn admit_at(seats: &mut Vec<Seat>, slot: u8, guest: Guest, cells: &[Option<Product>])
    requires { IsSomeAnd (slice_get seats.old.items slot) (λ seat. (seat.place ≡ None)
        × HasRoomFor (length seat.flow.sequences) (length seat.flow.needs) guest
        × (length cells.now ≤ length seat.flow.arrived)) }
    ensures { (seat : Shown) → slice_get seats.old.items slot ≡ Some seat
        → seats.new.items ≡ slice_set seats.old.items slot
        (record { flow = begun_with seat.flow (map is_some cells.now); place = Some guest.place }) }
{
    seats[usize::from(slot)].admit(guest, cells);
}

/// An algorithm of the seat's event is claimed. It takes no memory.
pub(crate) fn claim_at(seats: &mut Vec<Seat>, slot: u8, algorithm: u16, held: Held)
    requires { IsSomeAnd (slice_get seats.old.items slot) (λ seat. (algorithm < length seat.flow.needs)
        × (claim_in seat.flow algorithm ≡ None)) }
    ensures { (seat : Shown) → slice_get seats.old.items slot ≡ Some seat
        → seats.new.items ≡ slice_set seats.old.items slot
        (record seat { flow = with_claim seat.flow algorithm held }) }
{
    seats[usize::from(slot)].claim(algorithm, held);
}

/// A claim of the seat's event comes back without having run. It takes no memory.
pub(crate) fn put_back_at(seats: &mut Vec<Seat>, slot: u8, algorithm: u16)
    requires { IsSomeAnd (slice_get seats.old.items slot) (λ seat. (algorithm < length seat.flow.needs)
        × IsSome (claim_in seat.flow algorithm)) }
    ensures { (seat : Shown) → slice_get seats.old.items slot ≡ Some seat
        → seats.new.items ≡ slice_set seats.old.items slot
        (record seat { flow = without_claim seat.flow algorithm }) }
{
    seats[usize::from(slot)].put_back(algorithm);
}

/// A claimed algorithm of the seat's event has run, and left so many outputs from a handle on. It takes no
/// memory.
pub(crate) fn complete_at(
    seats: &mut Vec<Seat>,
    slot: u8,
    algorithm: u16,
    outcome: &Outcome,
    first: u16,
    count: u16,
)
    requires { IsSomeAnd (slice_get seats.old.items slot)
        (λ seat. CanFinish seat.flow algorithm first count) }
    ensures { (seat : Shown) → slice_get seats.old.items slot ≡ Some seat
        → seats.new.items ≡ slice_set seats.old.items slot
        (record seat { flow = completed_in seat.flow algorithm outcome.now first count }) }
{
    seats[usize::from(slot)].complete(algorithm, outcome, first, count);
}

/// The seat's event leaves, with the decisions and ends of its result told. It takes no memory.
pub(crate) fn retire_at(seats: &mut Vec<Seat>, slot: u8) -> Guest
    requires { IsSomeAnd (slice_get seats.old.items slot) (λ seat. IsSome seat.place) }
    ensures decisions { (seat : Shown) → slice_get seats.old.items slot ≡ Some seat
        → result.decisions.items ≡ decisions_in seat.flow }
    ensures ends { (seat : Shown) → slice_get seats.old.items slot ≡ Some seat
        → result.ends.items ≡ ends_in seat.flow }
    ensures seats { (seat : Shown) → slice_get seats.old.items slot ≡ Some seat
        → seats.new.items ≡ slice_set seats.old.items slot (record seat { place = None }) }
{
    seats[usize::from(slot)].retire()
}
