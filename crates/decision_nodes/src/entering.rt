//! Members that are entered newly (docs/PROCESSING.md, "Reached").
ghost use Rattle.std.specs.Prelude.{◌≡◌, ◌<◌, true, Some, length, slice_get};
ghost use Rattle.decision_nodes.specs.Marks.{AreMarkedFrom, AreMarks, AreSmall, IsNested, IsSmall, Reaches, marked, sequences_of};

use crate::marks::Marks;
use crate::node::Node;
use hive_model::{MOST_DEPTH, Member};

// The node of that number.
pub(crate) fn node_at(nodes: &[Node], number: u16) -> &Node
    requires { number < length nodes.now }
    ensures { slice_get nodes.now number ≡ Some result.now }
{
    &nodes[usize::from(number)]
}

// Marks the members that a marked sequence enters from that place on, and all that is reached from there,
// over at most `depth` sequences one below the other.
fn enter_members(nodes: &[Node], marks: &mut Marks, depth: u8, sequence: u16, from: usize)
    requires nested { IsNested depth (sequences_of nodes.now) (Member.Seq sequence) }
    requires small { AreSmall nodes.now }
    requires sequence { marked marks.old (Member.Seq sequence) ≡ true }
    ensures reaches { Reaches nodes.now (marked marks.old) (marked marks.new) }
    ensures entered { AreMarkedFrom nodes.now (marked marks.new) sequence from }
{
    let node = node_at(nodes, sequence);
    for place in from..node.entered() {
        let member = node.members()[place];
        marks.mark(member);
        match member {
            Member::Alg(_leaf) => {}
            Member::Seq(below) => enter_members(nodes, marks, depth - 1, below, 0),
        }
    }
}

/// Marks what is newly reached where a node enters more than the first `from` members.
pub(crate) fn enter_further(nodes: &[Node], marks: &mut Marks, sequence: u16, from: usize)
    requires nested { IsNested MOST_DEPTH (sequences_of nodes.now) (Member.Seq sequence) }
    requires small { AreSmall nodes.now }
    requires number { IsSmall (Member.Seq sequence) }
    ensures reaches { Reaches nodes.now (marked marks.old) (marked marks.new) }
    ensures entered { marked marks.old (Member.Seq sequence) ≡ true
        → AreMarkedFrom nodes.now (marked marks.new) sequence from }
{
    if marks.has_sequence(sequence) {
        enter_members(nodes, marks, MOST_DEPTH, sequence, from);
    }
}

/// Marks the top, and all that is reached from it.
pub(crate) fn enter_top(nodes: &[Node], marks: &mut Marks, top: u16)
    requires nested { IsNested MOST_DEPTH (sequences_of nodes.now) (Member.Seq top) }
    requires small { AreSmall nodes.now }
    requires number { IsSmall (Member.Seq top) }
    ensures marks { AreMarks nodes.now top (marked marks.old) → AreMarks nodes.now top (marked marks.new) }
    ensures top { marked marks.new (Member.Seq top) ≡ true }
{
    marks.mark(Member::Seq(top));
    enter_members(nodes, marks, MOST_DEPTH, top, 0);
}
