//! What was claimed comes back, performed or not.
ghost use Rattle.std.specs.Prelude.{◌≡◌, ℕ, List, Option, map, IfNone, IfSome};
ghost use Rattle.std.specs.Arc.{arc_value};
ghost use Rattle.event_slots.specs.Slots.{AreSlotsOf};
ghost use Rattle.expr_code.specs.Claim.{IsOfJob};
ghost use Rattle.hive_model.specs.Machine.{Busy, Machine};
ghost use Rattle.scheduler_core.specs.Says.{BackSays, DoneSays, IsOutIn, RecallSays};
ghost use Rattle.scheduler_core.specs.State.{AreClaimsOf, IsDesk, NamesClaim};

use crate::answers::{Give, Recall};
use crate::desk::Desk;
use crate::journal::enter;
use event_slots::Slots;
use expr_code::{Claimed, Done};
use hive_model::{Entry, Job, Lent, Product, Scratch};
use std::alloc::Global;
use std::sync::Arc;

impl Desk {
    /// Books what an execution left: the algorithm's outcome, and its outputs in the store of its event. A claim
    /// that isn't outstanding here, as it was handed out, is handed back. It takes no memory.
    pub fn done(&mut self, value: Done) -> Give<Done>
        requires { IsOfJob self.old.job value.claim }
        ensures says { DoneSays self.old value result self.new }
        ensures desk { IsDesk self.new }
    {
        let ticket = value.ticket();
        let Some(slot) = slot_of(
            &self.slots,
            &self.job,
            self.journal.as_slice(),
            ticket,
            value.algorithm(),
            value.clone_number(),
            value.inputs(),
        ) else {
            return Give::NotOutstanding(value);
        };
        let (lent, outcome, outputs) = value.into_parts();
        self.slots
            .complete(&self.job, slot, lent, &outcome, outputs);
        enter(&mut self.journal, Entry::Done { ticket, outcome });
        self.owed -= 1;
        Give::Booked
    }

    /// Puts a claim back that wasn't performed, so that it can be claimed again. A claim that isn't outstanding here,
    /// as it was handed out, is handed back. It takes no memory.
    pub fn back(&mut self, value: Claimed) -> Give<Claimed>
        requires { IsOfJob self.old.job value }
        ensures says { BackSays self.old value result self.new }
        ensures desk { IsDesk self.new }
    {
        let ticket = value.ticket();
        let Some(slot) = slot_of(
            &self.slots,
            &self.job,
            self.journal.as_slice(),
            ticket,
            value.algorithm(),
            value.clone_number(),
            value.inputs(),
        ) else {
            return Give::NotOutstanding(value);
        };
        self.slots.give_back(&self.job, slot, value.into_lent());
        enter(&mut self.journal, Entry::Back { ticket });
        self.owed -= 1;
        Give::Booked
    }

    /// Puts the oldest claim back whose worker doesn't come again, with a new scratch in place of the one that it has.
    pub fn recall(&mut self, alloc: Global) -> Recall
        ensures says { RecallSays self.old result self.new }
        ensures desk { IsDesk self.new }
    {
        let Some(claim) = self.slots.first_claim(&self.job) else {
            return Recall::Nothing;
        };
        let algorithm = usize::from(claim.algorithm);
        let Ok(scratch) = Scratch::new(alloc, &self.job.algorithms()[algorithm]) else {
            return Recall::NoMemory;
        };
        let lent = Lent {
            algorithm: claim.algorithm,
            clone: claim.clone,
            scratch,
        };
        self.slots.give_back(&self.job, claim.slot, lent);
        enter(
            &mut self.journal,
            Entry::Back {
                ticket: claim.ticket,
            },
        );
        self.owed -= 1;
        Recall::Put
    }
}

/// The slot and the algorithm that the entry of that index claims, if it claims any.
fn claimed_by(journal: &[Entry], ticket: u64) -> Option<(u8, u16)>
    ensures some { IfSome result (λ it. NamesClaim journal.now ticket it.0 it.1) }
    ensures none { IfNone result ((slot number : ℕ) → NamesClaim journal.now ticket slot number → ⊥) }
{
    match journal.get(ticket as usize) {
        Some(
            Entry::Claim {
                slot,
                algorithm,
                clone: _,
                worker: _,
            },
        ) => Some((*slot, *algorithm)),
        _ => None,
    }
}

/// The slot in which a claim is outstanding with that ticket, instance and inputs, if there is one.
fn slot_of(
    slots: &Slots,
    job: &Job,
    journal: &[Entry],
    ticket: u64,
    algorithm: u16,
    clone: Option<u8>,
    inputs: &[Arc<Product>],
) -> Option<u8>
    requires { (machine : List (Option Busy)) × AreSlotsOf job.now machine slots.now }
    ensures some { IfSome result (λ slot. (m : Machine) → AreClaimsOf job.now journal.now m
        → AreSlotsOf job.now m.slots slots.now
        → IsOutIn m slot ticket algorithm clone (map arc_value inputs.now)) }
    ensures none { IfNone result ((m : Machine) → AreClaimsOf job.now journal.now m
        → AreSlotsOf job.now m.slots slots.now → (slot : ℕ)
        → IsOutIn m slot ticket algorithm clone (map arc_value inputs.now) → ⊥) }
{
    let (slot, claimed) = claimed_by(journal, ticket)?;
    if claimed == algorithm && slots.holds(job, slot, ticket, algorithm, clone, inputs) {
        Some(slot)
    } else {
        None
    }
}
