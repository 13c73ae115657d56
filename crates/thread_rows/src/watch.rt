//! A gate that watches executions.
use crate::hold::Hold;
use crate::in_flight::has_run;
use hive_model::{Algorithm, EventResult, Job};
use hive_workers::Gate;
use std::alloc::{AllocError, Global};
use std::sync::atomic::{AtomicU64, Ordering};

/// Counts the executions of each algorithm in each event, and those that go on at one time, and holds them. It sees
/// what the threads do, whatever the journal says.
#[derive(Drop)]
pub(crate) struct Watch<'a> {
    job: &'a Job,
    hold: Hold,
    // For each event in input order one for each algorithm.
    executions: Vec<AtomicU64>,
    // How many executions of each algorithm go on, and how many with each resource.
    running: Vec<AtomicU64>,
    using: Vec<AtomicU64>,
    // How many were begun beside as many as there are instances or units.
    too_many: AtomicU64,
}

impl<'a> Watch<'a> {
    /// Of a run on so many events.
    pub(crate) fn new(
        alloc: Global,
        job: &'a Job,
        events: usize,
        hold: Hold,
    ) -> Result<Watch<'a>, AllocError> {
        let algorithms = job.algorithms().len();
        Ok(Watch {
            job,
            hold,
            executions: zeros(alloc, events.saturating_mul(algorithms))?,
            running: zeros(alloc, algorithms)?,
            using: zeros(alloc, job.resources.as_slice().len())?,
            too_many: AtomicU64::new(0),
        })
    }

    /// Whether so many executions as were wanted stood between claim and result at one time.
    pub(crate) fn was_reached(&self) -> bool {
        self.hold.was_reached()
    }

    /// Whether no instance and no unit was ever used twice at a time.
    pub(crate) fn were_few(&self) -> bool {
        self.too_many.load(Ordering::SeqCst) == 0
    }

    /// Whether each algorithm was executed once in the events in which it runs alone, and never in the others.
    pub(crate) fn were_once(&self, results: &[EventResult]) -> bool {
        for (event, alone) in results.iter().enumerate() {
            for (algorithm, end) in alone.ends().iter().enumerate() {
                let due = if has_run(*end) { 1 } else { 0 };
                if self.executions(event, algorithm) != due {
                    return false;
                }
            }
        }
        true
    }

    fn executions(&self, event: usize, algorithm: usize) -> u64 {
        match self.executions.get(self.index(event, algorithm)) {
            Some(count) => count.load(Ordering::SeqCst),
            None => 0,
        }
    }

    fn index(&self, event: usize, algorithm: usize) -> usize {
        event
            .saturating_mul(self.running.len())
            .saturating_add(algorithm)
    }

    fn body(&self, algorithm: u16) -> Option<&Algorithm> {
        self.job.algorithms().get(usize::from(algorithm))
    }

    fn enter(&self, algorithm: u16, body: &Algorithm) {
        let running = add(self.running.as_slice(), algorithm);
        if body.cardinality > 0 && running >= u64::from(body.cardinality) {
            self.too_many.fetch_add(1, Ordering::SeqCst);
        }
        for resource in body.resources.as_slice() {
            let using = add(self.using.as_slice(), *resource);
            if using >= self.units(*resource) {
                self.too_many.fetch_add(1, Ordering::SeqCst);
            }
        }
    }

    fn leave(&self, algorithm: u16, body: &Algorithm) {
        take(self.running.as_slice(), algorithm);
        for resource in body.resources.as_slice() {
            take(self.using.as_slice(), *resource);
        }
    }

    fn units(&self, resource: u16) -> u64 {
        let job = self.job;
        match job.resources.as_slice().get(usize::from(resource)) {
            Some(it) => u64::from(it.units),
            None => 0,
        }
    }
}

impl Gate for Watch<'_> {
    fn before(&self, place: u64, algorithm: u16) {
        let event = (place as usize).saturating_sub(1);
        let index = self.index(event, usize::from(algorithm));
        if let Some(count) = self.executions.get(index) {
            count.fetch_add(1, Ordering::SeqCst);
        }
        if let Some(body) = self.body(algorithm) {
            self.enter(algorithm, body);
        }
        self.hold.wait();
    }

    fn after(&self, _place: u64, algorithm: u16) {
        if let Some(body) = self.body(algorithm) {
            self.leave(algorithm, body);
        }
    }
}

fn zeros(alloc: Global, count: usize) -> Result<Vec<AtomicU64>, AllocError> {
    let mut zeros = Vec::with_capacity(alloc, count)?;
    for _index in 0..count {
        zeros.push(AtomicU64::new(0))?;
    }
    Ok(zeros)
}

// What the count was before it rose.
fn add(counts: &[AtomicU64], index: u16) -> u64 {
    match counts.get(usize::from(index)) {
        Some(count) => count.fetch_add(1, Ordering::SeqCst),
        None => 0,
    }
}

fn take(counts: &[AtomicU64], index: u16) {
    if let Some(count) = counts.get(usize::from(index)) {
        count.fetch_sub(1, Ordering::SeqCst);
    }
}
