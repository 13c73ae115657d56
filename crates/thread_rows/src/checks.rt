//! Whether a journal keeps the laws.
use crate::in_flight::InFlight;
use crate::law::{Law, keep};
use crate::sample::Sample;
use crate::tables::Tables;
use hive_model::{Algorithm, Entry, Outcome};
use std::alloc::{AllocError, Global};

/// The first entry that breaks a law; behind the last one where the whole breaks it.
#[derive(Clone, Copy, Debug)]
pub(crate) struct Broken {
    /// Its index in the journal.
    pub(crate) entry: u64,
    pub(crate) law: Law,
}

impl Broken {
    pub(crate) fn text(&self, alloc: Global) -> Result<String, AllocError> {
        format!(in alloc; "entry {} breaks: {}", self.entry, self.law.words())
    }
}

/// The first entry of a journal that breaks a law. The sample tells what each event comes to alone.
pub(crate) fn first_broken(
    alloc: Global,
    sample: &Sample,
    slots: u8,
    workers: u8,
    journal: &[Entry],
) -> Result<Option<Broken>, AllocError> {
    let mut tables = Tables::new(alloc, sample, slots, workers)?;
    for (index, entry) in journal.iter().enumerate() {
        let index = index as u64;
        if let Err(law) = tables.check(entry) {
            return Ok(Some(Broken { entry: index, law }));
        }
        tables.enter(alloc, index, entry)?;
    }
    match tables.check_end() {
        Ok(()) => Ok(None),
        Err(law) => Ok(Some(Broken {
            entry: journal.len() as u64,
            law,
        })),
    }
}

impl Tables<'_> {
    fn check(&self, entry: &Entry) -> Result<(), Law> {
        match *entry {
            Entry::Admit { slot, place } => self.check_admit(slot, place),
            Entry::Claim {
                slot,
                algorithm,
                clone: instance,
                worker,
            } => self.check_claim(slot, algorithm, instance, worker),
            Entry::Done { ticket, outcome } => self.check_done(ticket, outcome),
            Entry::Back { ticket } => keep(self.claim_of(ticket).is_some(), Law::Ticket),
            Entry::Retire { slot } => self.check_retire(slot),
            Entry::Last => keep(!self.is_last, Law::OneLast),
        }
    }

    // What the whole journal keeps, when all entries are entered.
    fn check_end(&self) -> Result<(), Law> {
        keep(self.admitted == self.results.len(), Law::AllCome)?;
        keep(self.are_all_empty(), Law::AllEnd)?;
        keep(self.is_last, Law::OneLast)
    }

    fn check_admit(&self, slot: u8, place: u64) -> Result<(), Law> {
        let next = (self.admitted as u64).saturating_add(1);
        keep(self.is_empty(slot), Law::EmptySlot)?;
        keep(place == next, Law::NextPlace)?;
        keep(self.admitted < self.results.len(), Law::NextPlace)?;
        keep(!self.is_last, Law::NoneAfterLast)
    }

    fn check_claim(
        &self,
        slot: u8,
        algorithm: u16,
        instance: Option<u8>,
        worker: u8,
    ) -> Result<(), Law> {
        let Some(event) = self.event_in(slot) else {
            return Err(Law::BusySlot);
        };
        let Some(body) = self.body(algorithm) else {
            return Err(Law::Known);
        };
        keep(worker <= self.workers, Law::Known)?;
        keep(!self.is_claimed(slot, algorithm), Law::ClaimedOnce)?;
        keep(!event.is_done(usize::from(algorithm)), Law::DoneOnce)?;
        keep(self.has_inputs(event, body), Law::Inputs)?;
        keep(self.has_room(algorithm, body.cardinality), Law::Cardinality)?;
        keep(
            self.is_free(algorithm, instance, body.cardinality),
            Law::Instance,
        )?;
        keep(self.has_units(body), Law::Units)
    }

    fn check_done(&self, ticket: u64, outcome: Outcome) -> Result<(), Law> {
        let Some(claim) = self.claim_of(ticket) else {
            return Err(Law::Ticket);
        };
        let Some(event) = self.event_in(claim.slot) else {
            return Err(Law::BusySlot);
        };
        keep(
            event.ends_so(usize::from(claim.algorithm), outcome),
            Law::Outcome,
        )
    }

    fn check_retire(&self, slot: u8) -> Result<(), Law> {
        let Some(event) = self.event_in(slot) else {
            return Err(Law::BusySlot);
        };
        keep(!self.is_worked_on(slot), Law::Outstanding)?;
        keep(event.is_complete(), Law::Complete)
    }

    fn has_inputs(&self, event: &InFlight<'_>, body: &Algorithm) -> bool {
        for input in body.inputs() {
            if !self.is_there(event, *input) {
                return false;
            }
        }
        true
    }

    // Whether the event has the product, and the algorithm that gives it is done.
    fn is_there(&self, event: &InFlight<'_>, handle: u16) -> bool {
        for (number, body) in self.job.algorithms().iter().enumerate() {
            if gives(body, handle) {
                return event.ends_with(handle) && event.is_done(number);
            }
        }
        event.ends_with(handle)
    }

    // Whether one more event may run the algorithm.
    fn has_room(&self, algorithm: u16, cardinality: u8) -> bool {
        cardinality == 0 || self.claims_of(algorithm) < u64::from(cardinality)
    }

    // Whether the instance may be lent. A re-entrant algorithm has none.
    fn is_free(&self, algorithm: u16, instance: Option<u8>, cardinality: u8) -> bool {
        match instance {
            Some(number) => number < cardinality && !self.is_lent(algorithm, number),
            None => cardinality == 0,
        }
    }

    fn has_units(&self, body: &Algorithm) -> bool {
        for resource in body.resources.as_slice() {
            if !self.has_unit(*resource) {
                return false;
            }
        }
        true
    }

    fn has_unit(&self, resource: u16) -> bool {
        let job = self.job;
        match job.resources.as_slice().get(usize::from(resource)) {
            Some(it) => self.units_used(resource) < u64::from(it.units),
            None => false,
        }
    }
}

fn gives(body: &Algorithm, handle: u16) -> bool {
    let first = usize::from(body.first_output);
    let behind = first.saturating_add(body.outputs().len());
    first <= usize::from(handle) && usize::from(handle) < behind
}
