//! What is in flight, as a journal tells of it, in plain tables.
use crate::in_flight::InFlight;
use crate::sample::Sample;
use hive_model::{Algorithm, Entry, EventResult, Job};
use std::alloc::{AllocError, Global};

/// A claim that hasn't ended.
#[derive(Clone, Copy, Debug)]
pub(crate) struct Outstanding {
    pub(crate) ticket: u64,
    pub(crate) slot: u8,
    pub(crate) algorithm: u16,
    pub(crate) instance: Option<u8>,
}

/// What the entries so far have come to. Nothing in it is taken from the scheduler, and it is counted anew for each
/// question.
#[derive(Drop)]
pub(crate) struct Tables<'a> {
    pub(crate) job: &'a Job,
    /// What each event comes to alone.
    pub(crate) results: &'a [EventResult],
    /// The greatest number of a participant.
    pub(crate) workers: u8,
    /// How many events were admitted.
    pub(crate) admitted: usize,
    pub(crate) is_last: bool,
    slots: Vec<Option<InFlight<'a>>>,
    outstanding: Vec<Outstanding>,
}

impl<'a> Tables<'a> {
    /// No entry yet.
    pub(crate) fn new(
        alloc: Global,
        sample: &'a Sample,
        slots: u8,
        workers: u8,
    ) -> Result<Tables<'a>, AllocError> {
        let mut empty = Vec::with_capacity(alloc, usize::from(slots))?;
        for _slot in 0..slots {
            empty.push(None)?;
        }
        Ok(Tables {
            job: &sample.job,
            results: sample.due.results.as_slice(),
            workers,
            admitted: 0,
            is_last: false,
            slots: empty,
            outstanding: Vec::new(alloc),
        })
    }

    /// Enters the entry at that index of the journal.
    pub(crate) fn enter(
        &mut self,
        alloc: Global,
        index: u64,
        entry: &Entry,
    ) -> Result<(), AllocError> {
        match *entry {
            Entry::Admit { slot, place: _ } => self.admit(alloc, slot),
            Entry::Claim {
                slot,
                algorithm,
                clone: instance,
                worker: _,
            } => Ok(
                self.outstanding.push(Outstanding {
                    ticket: index,
                    slot,
                    algorithm,
                    instance,
                })?,
            ),
            Entry::Done { ticket, outcome: _ } => {
                self.end_done(ticket);
                Ok(())
            }
            Entry::Back { ticket } => {
                self.end_claim(ticket);
                Ok(())
            }
            Entry::Retire { slot } => {
                self.put(slot, None);
                Ok(())
            }
            Entry::Last => {
                self.is_last = true;
                Ok(())
            }
        }
    }

    fn admit(&mut self, alloc: Global, slot: u8) -> Result<(), AllocError> {
        if let Some(ended) = self.results.get(self.admitted) {
            let event = InFlight::new(alloc, ended)?;
            self.put(slot, Some(event));
        }
        self.admitted = self.admitted.saturating_add(1);
        Ok(())
    }

    fn put(&mut self, slot: u8, event: Option<InFlight<'a>>) {
        let slot = usize::from(slot);
        if slot < self.slots.len() {
            self.slots[slot] = event;
        }
    }

    fn end_done(&mut self, ticket: u64) {
        if let Some(claim) = self.claim_of(ticket) {
            if let Some(Some(event)) = self.slots.get_mut(usize::from(claim.slot)) {
                event.set_done(usize::from(claim.algorithm));
            }
        }
        self.end_claim(ticket);
    }

    fn end_claim(&mut self, ticket: u64) {
        self.outstanding.retain(|claim| claim.ticket != ticket);
    }

    /// The claim with that ticket, if it is outstanding.
    pub(crate) fn claim_of(&self, ticket: u64) -> Option<Outstanding> {
        for claim in &self.outstanding {
            if claim.ticket == ticket {
                return Some(*claim);
            }
        }
        None
    }

    pub(crate) fn event_in(&self, slot: u8) -> Option<&InFlight<'a>> {
        match self.slots.get(usize::from(slot)) {
            Some(Some(event)) => Some(event),
            Some(None) => None,
            None => None,
        }
    }

    /// Whether there is such a slot, and no event in it.
    pub(crate) fn is_empty(&self, slot: u8) -> bool {
        matches!(self.slots.get(usize::from(slot)), Some(None))
    }

    /// Whether no event is in flight.
    pub(crate) fn are_all_empty(&self) -> bool {
        for slot in &self.slots {
            if slot.is_some() {
                return false;
            }
        }
        true
    }

    /// Whether a claim of an event in that slot is outstanding.
    pub(crate) fn is_worked_on(&self, slot: u8) -> bool {
        for claim in &self.outstanding {
            if claim.slot == slot {
                return true;
            }
        }
        false
    }

    /// Whether a claim of that algorithm in that slot is outstanding.
    pub(crate) fn is_claimed(&self, slot: u8, algorithm: u16) -> bool {
        for claim in &self.outstanding {
            if claim.slot == slot && claim.algorithm == algorithm {
                return true;
            }
        }
        false
    }

    /// Whether a claim has that instance.
    pub(crate) fn is_lent(&self, algorithm: u16, instance: u8) -> bool {
        for claim in &self.outstanding {
            if claim.algorithm == algorithm && claim.instance == Some(instance) {
                return true;
            }
        }
        false
    }

    /// How many claims of that algorithm are outstanding.
    pub(crate) fn claims_of(&self, algorithm: u16) -> u64 {
        let mut count: u64 = 0;
        for claim in &self.outstanding {
            if claim.algorithm == algorithm {
                count = count.saturating_add(1);
            }
        }
        count
    }

    /// How many units of that resource are in use.
    pub(crate) fn units_used(&self, resource: u16) -> u64 {
        let mut count: u64 = 0;
        for claim in &self.outstanding {
            if self.uses(claim.algorithm, resource) {
                count = count.saturating_add(1);
            }
        }
        count
    }

    fn uses(&self, algorithm: u16, resource: u16) -> bool {
        match self.body(algorithm) {
            Some(body) => body.resources.as_slice().contains(&resource),
            None => false,
        }
    }

    pub(crate) fn body(&self, algorithm: u16) -> Option<&Algorithm> {
        self.job.algorithms().get(usize::from(algorithm))
    }
}
