//! One decision node with what its members say.
ghost use Rattle.std.specs.Prelude.{◌≡◌, ◌<◌, ◌≤◌, IfOk, length, replicate};
ghost use Rattle.decision_nodes.specs.Standing.{Standing, fresh, heard};
ghost use Rattle.hive_model.specs.Decision.{node_decision};
ghost use Rattle.hive_model.specs.Reached.{entered};

use crate::deciding::{
    Counts, count_entered, counts_of_none, counts_with, is_undecided, node_decision,
};
use hive_model::{Decision, Duplicate, Many, Member, Sequence};
use std::alloc::{AllocError, Global};
use std::marker::Model;

/// A sequence, and for each of its members the decision that it was told. It is seen as these two alone.
#[derive(Drop)]
pub(crate) struct Node {
    sequence: Sequence,
    states: Vec<Decision>,
    counts: Counts,
    /// what it decides by these
    decision: Decision,
}

impl Model for Node {
    ghost use Rattle.std.specs.Prelude.{◌≡◌, length};
    ghost use Rattle.decision_nodes.specs.Counting.{IsCounted};
    ghost use Rattle.decision_nodes.specs.Standing.{Standing};
    ghost use Rattle.hive_model.specs.Decision.{node_decision};

    ghost Value = { Standing };

    ghost view = { λ it. record { sequence = it.sequence; states = it.states.items } };

    ghost invariant = { λ it. (length it.states.items ≡ length it.sequence.members)
        × IsCounted it.sequence it.states.items it.counts
        × (it.decision ≡ node_decision it.sequence it.states.items) };
}

impl Node {
    /// The node of a sequence whose members said nothing yet. The only error is running out of memory.
    pub(crate) fn new(alloc: Global, sequence: &Sequence) -> Result<Node, AllocError>
        ensures { IfOk result (λ it. it ≡ fresh sequence.now) }
    {
        let sequence = copy_sequence(alloc, sequence)?;
        let members = sequence.members().len();
        let states = undecided(alloc, members)?;
        let counts = counts_of_none(members);
        let decision = node_decision(&sequence, states.as_slice(), counts);
        Ok(Node {
            sequence,
            states,
            counts,
            decision,
        })
    }

    /// Its members, in written order.
    pub(crate) fn members(&self) -> &[Member]
        ensures { result.now ≡ self.now.sequence.members }
    {
        self.sequence.members()
    }

    /// Whether it cuts off what stands below it once it is decided.
    pub(crate) fn is_cut(&self) -> bool
        ensures { result ≡ self.now.sequence.cut }
    {
        self.sequence.cut
    }

    /// Its decision, where its members' are what they said.
    pub(crate) fn decision(&self) -> Decision
        ensures { result ≡ node_decision self.now.sequence self.now.states }
    {
        self.decision
    }

    /// How many members it enters where it is reached; these are the first ones.
    pub(crate) fn entered(&self) -> usize
        ensures count { result ≡ length (entered self.now.sequence self.now.states) }
        ensures within { result ≤ length self.now.sequence.members }
    {
        count_entered(&self.sequence, self.states.as_slice(), self.counts)
    }

    /// Takes down what the member at that place says. What it said before stays.
    pub(crate) fn put(&mut self, place: usize, decision: Decision)
        requires { place < length self.old.sequence.members }
        ensures { self.new ≡ heard self.old place decision }
    {
        let was = self.states[place];
        if is_undecided(decision) || !is_undecided(was) {
            return;
        }
        self.states[place] = decision;
        self.counts = counts_with(
            &self.sequence,
            self.states.as_slice(),
            self.counts,
            decision,
        );
        self.decision = node_decision(&self.sequence, self.states.as_slice(), self.counts);
    }

    /// Forgets what its members said.
    pub(crate) fn clear(&mut self)
        ensures { self.new ≡ fresh self.old.sequence }
    {
        forget(&mut self.states);
        self.counts = counts_of_none(self.states.len());
        self.decision = node_decision(&self.sequence, self.states.as_slice(), self.counts);
    }
}

fn copy_sequence(alloc: Global, sequence: &Sequence) -> Result<Sequence, AllocError>
    ensures { IfOk result (λ it. it ≡ sequence.now) }
{
    let name = sequence.name.copy(alloc)?;
    let members = Vec::from_slice(alloc, sequence.members())?;
    Ok(Sequence {
        name,
        members: Many::from_vec(members),
        mode_or: sequence.mode_or,
        short_circuit: sequence.short_circuit,
        sequential: sequence.sequential,
        invert: sequence.invert,
        ignore_filter: sequence.ignore_filter,
        cut: sequence.cut,
    })
}

fn forget(states: &mut Vec<Decision>)
    ensures { states.new.items ≡ replicate (length states.old.items) Decision.Undecided }
{
    states.fill(Decision::Undecided);
}

fn undecided(alloc: Global, members: usize) -> Result<Vec<Decision>, AllocError>
    ensures { IfOk result (λ it. it.items ≡ replicate members Decision.Undecided) }
{
    Ok(vec![in alloc; Decision::Undecided; members]?)
}
