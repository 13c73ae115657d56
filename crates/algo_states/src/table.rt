//! The table of one event.
ghost use Rattle.std.specs.Prelude.{◌≡◌, ◌<◌, ◌≤◌, true, false, None, IfOk, length, nat_eq};
ghost use Rattle.hive_model.specs.Results.{outcome_at};
ghost use Rattle.hive_model.specs.Valid.{IsValidJob};
ghost use Rattle.hive_model.specs.declared.limits.TheConstants.{MOST_ALGORITHMS};
ghost use Rattle.algo_states.specs.States.{IsNextReady, holds, opening, opening_of, state_by, state_of, with_arrived, with_outcome, with_reached, with_scheduled};
ghost use Rattle.algo_states.specs.Table.{IsIndex, lists_of};

use crate::founding::{consumers_of, count_needs, counts_of, flags, needs_of, no_outcomes};
use crate::state::State;
use crate::waiting::{can_run, count_down, put};
use hive_model::{Job, Many, Outcome};
use number_set::NumberSet;
use std::alloc::{AllocError, Global};
use std::marker::Model;

/// The state of each algorithm of one event (docs/PROCESSING.md, "Enabled").
///
/// Contracts see the inputs of each algorithm, and what was told: by algorithm whether it is reached, whether it is
/// scheduled and how it ended; by handle whether it has arrived.
#[derive(Drop)]
pub struct StateTable {
    needs: Vec<Many<u16>>,
    consumers: Vec<Many<u16>>,
    missing: Vec<usize>,
    reached: Vec<bool>,
    scheduled: Vec<bool>,
    outcomes: Vec<Option<Outcome>>,
    arrived: Vec<bool>,
    ready: NumberSet,
}

impl Model for StateTable {
    ghost use Rattle.algo_states.specs.States.{States};
    ghost use Rattle.algo_states.specs.Table.{IsTable, lists_of};

    ghost Value = { States };

    ghost view = { λ it. record { needs = lists_of it.needs.items; reached = it.reached.items; scheduled = it.scheduled.items; outcomes = it.outcomes.items; arrived = it.arrived.items } };

    ghost invariant = { λ it. IsTable (lists_of it.needs.items) (lists_of it.consumers.items) it.missing.items it.reached.items it.scheduled.items it.outcomes.items it.arrived.items it.ready };
}

impl StateTable {
    /// The table of a job, with nothing told yet. The only error is that memory ran out.
    pub fn new(alloc: Global, job: &Job) -> Result<StateTable, AllocError>
        requires { IsValidJob job.now }
        ensures { IfOk result (λ it. it ≡ opening_of job.now) }
    {
        let handles = usize::from(job.handles());
        let needs = needs_of(alloc, job.algorithms())?;
        let consumers = consumers_of(alloc, needs.as_slice(), handles)?;
        StateTable::with_index(alloc, needs, consumers)
    }

    /// Forgets what was told. It takes no memory.
    pub fn clear(&mut self)
        ensures { self.new ≡ opening self.old.needs (length self.old.arrived) }
    {
        self.reached.fill(false);
        self.scheduled.fill(false);
        self.outcomes.fill(None);
        self.arrived.fill(false);
        self.ready = NumberSet::new();
        count_needs(&mut self.missing, self.needs.as_slice());
    }

    /// Control flow has reached an algorithm.
    pub fn reach(&mut self, algorithm: u16)
        requires { algorithm < length self.old.needs }
        ensures { self.new ≡ with_reached self.old algorithm }
    {
        let number = usize::from(algorithm);
        self.reached[number] = true;
        let is_in = can_run(
            true,
            self.scheduled[number],
            &self.outcomes[number],
            self.missing[number],
        );
        put(&mut self.ready, algorithm, is_in);
    }

    /// The product of a handle is there, which it was not before.
    pub fn arrive(&mut self, handle: u16)
        requires within { handle < length self.old.arrived }
        requires new { holds self.old.arrived handle ≡ false }
        ensures { self.new ≡ with_arrived self.old handle }
    {
        let number = usize::from(handle);
        self.arrived[number] = true;
        count_down(
            self.consumers[number].as_slice(),
            &mut self.missing,
            &mut self.ready,
            self.reached.as_slice(),
            self.scheduled.as_slice(),
            self.outcomes.as_slice(),
        );
    }

    /// An algorithm is handed out.
    pub fn schedule(&mut self, algorithm: u16)
        requires { algorithm < length self.old.needs }
        ensures { self.new ≡ with_scheduled self.old algorithm true }
    {
        let number = usize::from(algorithm);
        self.scheduled[number] = true;
        put(&mut self.ready, algorithm, false);
    }

    /// It comes back without having run.
    pub fn unschedule(&mut self, algorithm: u16)
        requires { algorithm < length self.old.needs }
        ensures { self.new ≡ with_scheduled self.old algorithm false }
    {
        let number = usize::from(algorithm);
        self.scheduled[number] = false;
        let is_in = can_run(
            self.reached[number],
            false,
            &self.outcomes[number],
            self.missing[number],
        );
        put(&mut self.ready, algorithm, is_in);
    }

    /// It has run.
    pub fn finish(&mut self, algorithm: u16, outcome: &Outcome)
        requires { algorithm < length self.old.needs }
        ensures { self.new ≡ with_outcome self.old algorithm outcome.now }
    {
        let number = usize::from(algorithm);
        self.scheduled[number] = false;
        self.outcomes[number] = Some(*outcome);
        put(&mut self.ready, algorithm, false);
    }

    /// The least algorithm in [`State::DataReady`] that isn't below `from`; `None` exactly where there is none.
    pub fn next_ready(&self, from: u16) -> Option<u16>
        ensures { IsNextReady self.now from result }
    {
        let ready = &self.ready;
        ready.first_from(from)
    }

    /// The state of an algorithm.
    pub fn state(&self, algorithm: u16) -> State
        requires { algorithm < length self.now.needs }
        ensures { result ≡ state_of self.now algorithm }
    {
        let number = usize::from(algorithm);
        let outcome = self.outcomes[number];
        state_by(
            outcome,
            self.scheduled[number],
            self.reached[number],
            self.missing[number],
        )
    }

    /// How an algorithm has ended; `None` where it has not run, or there is no such algorithm.
    pub fn outcome(&self, algorithm: u16) -> Option<Outcome>
        ensures { result ≡ outcome_at self.now.outcomes algorithm }
    {
        match self.outcomes.get(usize::from(algorithm)) {
            Some(outcome) => *outcome,
            None => None,
        }
    }

    fn with_index(
        alloc: Global,
        needs: Vec<Many<u16>>,
        consumers: Vec<Many<u16>>,
    ) -> Result<StateTable, AllocError>
        requires few { length needs.items ≤ MOST_ALGORITHMS }
        requires index { IsIndex (lists_of needs.items) (lists_of consumers.items) }
        ensures { IfOk result (λ it. it ≡ opening (lists_of needs.items) (length consumers.items)) }
    {
        let reached = flags(alloc, needs.len())?;
        let scheduled = flags(alloc, needs.len())?;
        let outcomes = no_outcomes(alloc, needs.len())?;
        let arrived = flags(alloc, consumers.len())?;
        let missing = counts_of(alloc, needs.as_slice())?;
        Ok(StateTable {
            needs,
            consumers,
            missing,
            reached,
            scheduled,
            outcomes,
            arrived,
            ready: NumberSet::new(),
        })
    }
}

fn state_by(outcome: Option<Outcome>, scheduled: bool, reached: bool, missing: usize) -> State
    ensures { result ≡ state_by outcome scheduled reached (nat_eq missing 0) }
{
    match outcome {
        Some(Outcome::Accepted) => State::Accepted,
        Some(Outcome::Rejected) => State::Rejected,
        Some(Outcome::Failed(_, _)) => State::Error,
        None => open_state(scheduled, reached, missing),
    }
}

// The state of an algorithm that hasn't run.
fn open_state(scheduled: bool, reached: bool, missing: usize) -> State
    ensures { result ≡ state_by None scheduled reached (nat_eq missing 0) }
{
    if scheduled {
        State::Scheduled
    } else if !reached {
        State::Initial
    } else if missing == 0 {
        State::DataReady
    } else {
        State::ControlReady
    }
}
