//! The table of one event.
ghost use Rattle.std.specs.Prelude.{◌≡◌, ℕ, ◌<◌, [], true, Some, None, IfOk, ◌&&◌, not, length, map, replicate, slice_get};
ghost use Rattle.std.specs.List.{list_any};
ghost use Rattle.number_set.specs.Numbers.{has};
ghost use Rattle.decision_nodes.specs.Index.{IsForest};
ghost use Rattle.decision_nodes.specs.Marks.{marked, sequences_of};
ghost use Rattle.decision_nodes.specs.Standing.{fresh};
ghost use Rattle.decision_nodes.specs.Telling.{IsUnderWay};
ghost use Rattle.decision_nodes.specs.Tree.{cleared, decision_in, is_reached_in, is_withdrawn_in, settled};
ghost use Rattle.hive_model.specs.Valid.{IsValidJob};

use crate::edge::Places;
use crate::entering::{enter_top, node_at};
use crate::founding::{copy_nodes, index_of, no_outcomes};
use crate::marks::Marks;
use crate::node::Node;
use crate::telling::{begin, tell_all};
use crate::withdrawing::is_cut_from;
use hive_model::{Decision, Job, MOST_DEPTH, Member, Outcome, Sequence};
use number_set::NumberSet;
use std::alloc::{AllocError, Global};
use std::marker::Model;

/// What is decided, reached and withdrawn for the outcomes settled so far (docs/PROCESSING.md, "Decisions",
/// "Reached" and "Live").
#[derive(Drop)]
pub struct TreeTable {
    nodes: Vec<Node>,
    leaves: Places,
    parents: Places,
    outcomes: Vec<Option<Outcome>>,
    top: u16,
    /// whether there is a cut node at all
    cuts: bool,
    marks: Marks,
}

impl Model for TreeTable {
    ghost use Rattle.std.specs.Prelude.{◌≡◌};
    ghost use Rattle.std.specs.List.{list_any};
    ghost use Rattle.decision_nodes.specs.Marks.{marked, sequences_of};
    ghost use Rattle.decision_nodes.specs.Table.{IsTable};
    ghost use Rattle.decision_nodes.specs.Tree.{Tree};

    ghost Value = { Tree };

    ghost view = { λ it.
        record { sequences = sequences_of it.nodes.items; top = it.top; outcomes = it.outcomes.items } };

    ghost invariant = { λ it.
        IsTable it.nodes.items it.leaves it.parents it.outcomes.items it.top (marked it.marks)
        × (it.cuts ≡ list_any (λ q. q.cut) (sequences_of it.nodes.items)) };
}

impl TreeTable {
    /// The table of a job for which nothing is settled. The only error is running out of memory.
    pub fn new(alloc: Global, job: &Job) -> Result<TreeTable, AllocError>
        requires { IsValidJob job.now }
        ensures { IfOk result (λ it. it ≡ cleared job.now.sequences job.now.top (length job.now.algorithms)) }
    {
        let sequences = job.sequences();
        let algorithms = job.algorithms().len();
        let index = index_of(alloc, sequences, algorithms)?;
        let mut nodes = copy_nodes(alloc, sequences)?;
        let outcomes = no_outcomes(alloc, algorithms)?;
        let marks = begin_marks(&mut nodes, &index.parents, outcomes.as_slice(), job.top);
        Ok(TreeTable {
            nodes,
            leaves: index.leaves,
            parents: index.parents,
            outcomes,
            top: job.top,
            cuts: has_cuts(sequences),
            marks,
        })
    }

    /// Forgets all outcomes, and gives the algorithms that are reached at the start (docs/PROCESSING.md,
    /// "Reached"). It takes no memory.
    pub fn clear(&mut self) -> NumberSet
        ensures outcomes { self.new ≡ cleared self.old.sequences self.old.top (length self.old.outcomes) }
        ensures reached { (a : ℕ) → has result a ≡ is_reached_in self.new a }
    {
        forget(&mut self.outcomes);
        clear_nodes(&mut self.nodes);
        let marks = begin_marks(
            &mut self.nodes,
            &self.parents,
            self.outcomes.as_slice(),
            self.top,
        );
        self.marks = marks;
        marks.algorithms
    }

    /// Settles an algorithm that isn't settled, and gives the algorithms that are newly reached
    /// (docs/PROCESSING.md, "Reached"). A failed outcome decides nothing. It takes no memory.
    pub fn settle(&mut self, algorithm: u16, outcome: &Outcome) -> NumberSet
        requires { slice_get self.old.outcomes algorithm ≡ Some None }
        ensures outcomes { self.new ≡ settled self.old algorithm outcome.now }
        ensures reached { (a : ℕ)
            → has result a ≡ (is_reached_in self.new a && not (is_reached_in self.old a)) }
    {
        let before = self.marks.algorithms;
        let number = usize::from(algorithm);
        self.outcomes[number] = Some(*outcome);
        let places = self.leaves.at(number);
        tell_all(
            &mut self.nodes,
            &self.parents,
            self.outcomes.as_slice(),
            &mut self.marks,
            places,
        );
        self.marks.algorithms.without(&before)
    }

    /// The decision of a sequence (docs/PROCESSING.md, "Decisions").
    pub fn decision(&self, sequence: u16) -> Decision
        requires { sequence < length self.now.sequences }
        ensures { result ≡ decision_in self.now sequence }
    {
        node_at(self.nodes.as_slice(), sequence).decision()
    }

    /// Whether control flow has reached the algorithm (docs/PROCESSING.md, "Reached").
    pub fn reached(&self, algorithm: u16) -> bool
        requires { algorithm < length self.now.outcomes }
        ensures { result ≡ is_reached_in self.now algorithm }
    {
        self.marks.algorithms.contains(algorithm)
    }

    /// Whether the algorithm is below a cut node that is decided (docs/PROCESSING.md, "Live").
    pub fn withdrawn(&self, algorithm: u16) -> bool
        requires { algorithm < length self.now.outcomes }
        ensures { result ≡ is_withdrawn_in self.now algorithm }
    {
        if !self.cuts {
            return false;
        }
        let places = self.leaves.at(usize::from(algorithm));
        is_cut_from(self.nodes.as_slice(), &self.parents, MOST_DEPTH, places)
    }
}

// Whether one of these is a cut node.
fn has_cuts(sequences: &[Sequence]) -> bool
    ensures { result ≡ list_any (λ q. q.cut) sequences.now }
{
    for sequence in sequences {
        if sequence.cut {
            return true;
        }
    }
    false
}

// No algorithm is settled.
fn forget(outcomes: &mut Vec<Option<Outcome>>)
    ensures { outcomes.new.items ≡ replicate (length outcomes.old.items) None }
{
    outcomes.fill(None);
}

// No member said anything.
fn clear_nodes(nodes: &mut Vec<Node>)
    ensures { nodes.new.items ≡ map fresh (sequences_of nodes.old.items) }
{
    for number in 0..nodes.len() {
        let node = &mut nodes[number];
        node.clear();
    }
}

// What is decided and reached where nothing is settled, over nodes whose members said nothing yet.
fn begin_marks(
    nodes: &mut Vec<Node>,
    parents: &Places,
    outcomes: &[Option<Outcome>],
    top: u16,
) -> Marks
    requires forest { IsForest (sequences_of nodes.old.items) (length outcomes.now) parents.now }
    requires fresh { nodes.old.items ≡ map fresh (sequences_of nodes.old.items) }
    requires outcomes { outcomes.now ≡ replicate (length outcomes.now) None }
    requires top { top < length nodes.old.items }
    ensures sequences { sequences_of nodes.new.items ≡ sequences_of nodes.old.items }
    ensures under_way { IsUnderWay nodes.new.items outcomes.now [] top (marked result) }
    ensures top { marked result (Member.Seq top) ≡ true }
{
    let mut marks = Marks::new();
    begin(nodes, parents, outcomes, &mut marks);
    enter_top(nodes.as_slice(), &mut marks, top);
    marks
}
