//! A claim that is outstanding.
ghost use Rattle.std.specs.Prelude.{◌≡◌};
ghost use Rattle.event_slots.specs.Standings.{older, standing_at};

use event_flow::Held;

/// Where a claim stands that was neither done nor put back (docs/PROCESSING.md, "Claims").
#[derive(Clone, Copy, Debug)]
pub struct Standing {
    /// The index, from 0, of the claim among the entries of its journal.
    pub ticket: u64,
    /// The slot of its event.
    pub slot: u8,
    /// The algorithm's number, from 0.
    pub algorithm: u16,
    /// The number of the instance on loan, from 0, or nothing for a re-entrant algorithm.
    pub clone: Option<u8>,
}

/// The one of the two that has the lesser ticket.
pub(crate) fn older(one: Option<Standing>, other: Option<Standing>) -> Option<Standing>
    ensures { result ≡ older one other }
{
    match (one, other) {
        (Some(it), Some(them)) => {
            if them.ticket < it.ticket {
                Some(them)
            } else {
                Some(it)
            }
        }
        (Some(it), None) => Some(it),
        (None, _) => other,
    }
}

/// An algorithm's claim, standing in that slot.
pub(crate) fn standing_at(slot: u8, found: Option<(u16, Held)>) -> Option<Standing>
    ensures { result ≡ standing_at slot found }
{
    match found {
        Some((algorithm, held)) => Some(Standing {
            ticket: held.ticket,
            slot,
            algorithm,
            clone: held.clone,
        }),
        None => None,
    }
}
