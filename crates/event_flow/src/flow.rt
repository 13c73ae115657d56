//! The flow of one event.
ghost use Rattle.std.specs.Prelude.{◌≡◌, ◌≤◌, ◌<◌, ◌+◌, ◌++◌, ℕ, false, is_some, length, map, slice_get, None, Some, IfOk, IsSome};
ghost use Rattle.std.specs.List.{count_by};
ghost use Rattle.hive_model.specs.Results.{outcome_at};
ghost use Rattle.hive_model.specs.Valid.{IsValidJob};
ghost use Rattle.event_flow.specs.Claimable.{IsFirstClaim, IsNextClaimable, is_settled_in};
ghost use Rattle.event_flow.specs.Events.{IsFlowFor};
ghost use Rattle.event_flow.specs.Flow.{claim_in, opening_of};
ghost use Rattle.event_flow.specs.Steps.{begun_with, completed_in, with_claim, without_claim};
ghost use Rattle.event_flow.specs.Told.{decisions_in, ends_in};

use crate::arriving::{arrive_all, arrive_present, reach_all};
use crate::claims::{claim_at, least_claim, next_live, no_claims};
use crate::held::Held;
use crate::telling::{tell_decisions, tell_ends};
use algo_states::StateTable;
use decision_nodes::TreeTable;
use hive_model::{Decision, End, Job, Many, Outcome, Product};
use number_set::NumberSet;
use std::alloc::{AllocError, Global};
use std::marker::Model;

/// What one event in flight knows of itself (docs/PROCESSING.md, "Claims" and "Enabled").
///
/// Contracts see the forest and the inputs of the job, how each algorithm ended, which handles have arrived,
/// and which algorithms are claimed. One flow serves an event after another of the same job.
#[derive(Drop)]
pub struct Flow {
    tree: TreeTable,
    states: StateTable,
    claims: Vec<Option<Held>>,
    claimed: NumberSet,
    outstanding: u16,
    nodes: u16,
}

impl Model for Flow {
    ghost use Rattle.event_flow.specs.Flow.{Flow as Shown};
    ghost use Rattle.event_flow.specs.Keeping.{IsTied};

    ghost Value = { Shown };

    ghost view = { λ it.
        record {
          sequences = it.tree.sequences;
          top = it.tree.top;
          needs = it.states.needs;
          outcomes = it.states.outcomes;
          claims = it.claims.items;
          arrived = it.states.arrived;
        } };

    ghost invariant = { λ it.
        IsTied it.tree it.states it.claims.items it.claimed it.outstanding it.nodes };
}

impl Flow {
    /// The flow of an event of which nothing is there yet. The only error is running out of memory.
    pub fn new(alloc: Global, job: &Job) -> Result<Flow, AllocError>
        requires { IsValidJob job.now }
        ensures opening { IfOk result (λ it. it ≡ opening_of job.now) }
        ensures of_job { IfOk result (λ it. IsFlowFor job.now it) }
    {
        let mut tree = TreeTable::new(alloc, job)?;
        let mut states = StateTable::new(alloc, job)?;
        let claims = no_claims(alloc, job.algorithms().len())?;
        let reached = tree.clear();
        reach_all(&mut states, &reached);
        Ok(Flow {
            tree,
            states,
            claims,
            claimed: NumberSet::new(),
            outstanding: 0,
            nodes: job.sequences().len() as u16,
        })
    }

    /// Another event begins: these are the cells of its record, and nothing has run or is claimed. It takes no
    /// memory.
    pub fn begin(&mut self, cells: &[Option<Product>])
        requires { length cells.now ≤ length self.old.arrived }
        ensures { self.new ≡ begun_with self.old (map is_some cells.now) }
    {
        self.states.clear();
        let reached = self.tree.clear();
        reach_all(&mut self.states, &reached);
        arrive_present(&mut self.states, cells);
        self.claims.fill(None);
        self.claimed = NumberSet::new();
        self.outstanding = 0;
    }

    /// The least algorithm, not below `from`, that can be claimed: it is enabled (docs/PROCESSING.md, "Enabled"),
    /// and not claimed. `None` exactly where there is none.
    pub fn next_claimable(&self, from: u16) -> Option<u16>
        ensures { IsNextClaimable self.now from result }
    {
        next_live(&self.tree, &self.states, from)
    }

    /// The claim of an algorithm that is outstanding; `None` exactly where there is none.
    pub fn claim_of(&self, algorithm: u16) -> Option<Held>
        ensures { result ≡ claim_in self.now algorithm }
    {
        claim_at(self.claims.as_slice(), algorithm)
    }

    /// The number of claims that are outstanding.
    pub fn outstanding(&self) -> u16
        ensures { result ≡ count_by is_some self.now.claims }
    {
        self.outstanding
    }

    /// The oldest claim, which has the least ticket, with its algorithm; `None` exactly where nothing is
    /// claimed.
    pub fn first_claim(&self) -> Option<(u16, Held)>
        ensures { IsFirstClaim self.now result }
    {
        least_claim(self.claims.as_slice(), &self.claimed)
    }

    /// Whether nothing is claimed, and nothing can be.
    pub fn is_settled(&self) -> bool
        ensures { result ≡ is_settled_in self.now }
    {
        if self.outstanding > 0 {
            return false;
        }
        let next = self.next_claimable(0);
        next.is_none()
    }

    /// An algorithm is claimed that isn't. It takes no memory.
    pub fn claim(&mut self, algorithm: u16, held: Held)
        requires within { algorithm < length self.old.needs }
        requires free { claim_in self.old algorithm ≡ None }
        ensures { self.new ≡ with_claim self.old algorithm held }
    {
        self.states.schedule(algorithm);
        self.claims[usize::from(algorithm)] = Some(held);
        self.claimed.insert(algorithm);
        self.outstanding += 1;
    }

    /// A claim comes back without having run. It takes no memory.
    pub fn put_back(&mut self, algorithm: u16)
        requires within { algorithm < length self.old.needs }
        requires held { IsSome (claim_in self.old algorithm) }
        ensures { self.new ≡ without_claim self.old algorithm }
    {
        self.states.unschedule(algorithm);
        self.claims[usize::from(algorithm)] = None;
        self.claimed.remove(algorithm);
        self.outstanding -= 1;
    }

    /// A claimed algorithm has run, and left so many outputs, whose handles begin with `first`. It takes no
    /// memory.
    pub fn complete(&mut self, algorithm: u16, outcome: &Outcome, first: u16, count: u16)
        requires within { algorithm < length self.old.needs }
        requires held { IsSome (claim_in self.old algorithm) }
        requires unrun { outcome_at self.old.outcomes algorithm ≡ None }
        requires missing { (i : ℕ) → i < count → slice_get self.old.arrived (first + i) ≡ Some false }
        ensures { self.new ≡ completed_in self.old algorithm outcome.now first count }
    {
        self.states.finish(algorithm, outcome);
        let reached = self.tree.settle(algorithm, outcome);
        reach_all(&mut self.states, &reached);
        arrive_all(&mut self.states, first, count);
        self.claims[usize::from(algorithm)] = None;
        self.claimed.remove(algorithm);
        self.outstanding -= 1;
    }

    /// Appends the decision of each sequence, in written order (docs/PROCESSING.md, "Decisions"). It takes no
    /// memory.
    pub fn tell_decisions(&self, into: &mut Many<Decision>)
        requires { length self.now.sequences ≤ into.old.spare }
        ensures { into.new.items ≡ into.old.items ++ decisions_in self.now }
    {
        tell_decisions(&self.tree, self.nodes, into);
    }

    /// Appends the end of each algorithm, in written order (docs/PROCESSING.md, "Statuses"). It takes no
    /// memory.
    pub fn tell_ends(&self, into: &mut Many<End>)
        requires { length self.now.needs ≤ into.old.spare }
        ensures { into.new.items ≡ into.old.items ++ ends_in self.now }
    {
        let count = self.claims.len() as u16;
        tell_ends(&self.tree, &self.states, count, into);
    }
}
