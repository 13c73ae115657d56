//! What a member says is told to its node, and what that changes to the nodes above.
ghost use Rattle.std.specs.Prelude.{◌≡◌, ℕ, ◌+◌, ◌<◌, ◌≤◌, List, [], true, ◌++◌, length, if◌then◌else◌, ◌&&◌, not, slice_get, slice_set, Some};
ghost use Rattle.std.specs.List.{count_by, flat_map};
ghost use Rattle.decision_nodes.specs.Index.{IsAmong, IsForest, IsIn, IsPlace, StandsAt, places_at};
ghost use Rattle.decision_nodes.specs.Marks.{marked, sequences_of};
ghost use Rattle.decision_nodes.specs.Standing.{Standing, heard, is_open};
ghost use Rattle.decision_nodes.specs.Telling.{HasHeard, IsUnderWay, StandsIn, Tells, told};

use crate::deciding::{is_undecided, leaf_decision};
use crate::edge::{Edge, Places};
use crate::entering::{enter_further, node_at};
use crate::marks::Marks;
use crate::node::Node;
use hive_model::{Decision, Member, Outcome};

// What a member says now.
fn said_by(nodes: &[Node], outcomes: &[Option<Outcome>], member: Member) -> Decision
    requires { IsIn (length outcomes.now) (length nodes.now) member }
    ensures { result ≡ told nodes.now outcomes.now member }
{
    match member {
        Member::Alg(number) => leaf_decision(outcomes[usize::from(number)]),
        Member::Seq(number) => node_at(nodes, number).decision(),
    }
}

// Whether the node of that number isn't decided.
pub(crate) fn is_open(nodes: &[Node], sequence: u16) -> bool
    requires { sequence < length nodes.now }
    ensures { (n : Standing) → slice_get nodes.now sequence ≡ Some n → result ≡ is_open n }
{
    is_undecided(node_at(nodes, sequence).decision())
}

// The member at that place.
fn member_at(nodes: &[Node], edge: Edge) -> Member
    requires { IsPlace (sequences_of nodes.now) edge }
    ensures { (n : Standing) × StandsIn nodes.now edge n result }
{
    node_at(nodes, edge.sequence).members()[edge.place]
}

// The node hears that.
fn hear(nodes: &mut Vec<Node>, edge: Edge, decision: Decision)
    requires { IsPlace (sequences_of nodes.old.items) edge }
    ensures { (n : Standing) → slice_get nodes.old.items edge.sequence ≡ Some n
        → nodes.new.items ≡ slice_set nodes.old.items edge.sequence (heard n edge.place decision) }
{
    let node = &mut nodes[usize::from(edge.sequence)];
    node.put(edge.place, decision);
}

// Takes down what the member at that place says.
fn learn(nodes: &mut Vec<Node>, outcomes: &[Option<Outcome>], edge: Edge)
    requires place { IsPlace (sequences_of nodes.old.items) edge }
    requires member { (m : Member) → StandsAt (sequences_of nodes.old.items) edge m
        → IsIn (length outcomes.now) (length nodes.old.items) m }
    ensures { HasHeard nodes.old.items outcomes.now edge nodes.new.items }
{
    let member = member_at(nodes.as_slice(), edge);
    let said = said_by(nodes.as_slice(), outcomes, member);
    hear(nodes, edge, said);
}

// Tells the node of that place what its member says, and marks what is reached by it. Whether the node is
// decided by it.
fn tell(nodes: &mut Vec<Node>, outcomes: &[Option<Outcome>], marks: &mut Marks, edge: Edge) -> bool
    requires forest { (parents : List (List Edge))
        × IsForest (sequences_of nodes.old.items) (length outcomes.now) parents }
    requires place { IsPlace (sequences_of nodes.old.items) edge }
    ensures sequences { sequences_of nodes.new.items ≡ sequences_of nodes.old.items }
    ensures tells { Tells nodes.old.items outcomes.now edge result nodes.new.items
        (marked marks.old) (marked marks.new) }
    ensures falls { count_by is_open nodes.new.items + (if result then 1 else 0)
        ≤ count_by is_open nodes.old.items }
    ensures more { (m : Member) → marked marks.old m ≡ true → marked marks.new m ≡ true }
{
    let entered = node_at(nodes.as_slice(), edge.sequence).entered();
    let was_open = is_open(nodes.as_slice(), edge.sequence);
    learn(nodes, outcomes, edge);
    enter_further(nodes.as_slice(), marks, edge.sequence, entered);
    is_closed_by(was_open, is_open(nodes.as_slice(), edge.sequence))
}

// Whether what was open isn't any more.
fn is_closed_by(was_open: bool, is_open: bool) -> bool
    ensures { result ≡ (was_open && not is_open) }
{
    was_open && !is_open
}

/// Tells these places what their members say, and so on up from each node that is decided by it.
pub(crate) fn tell_all(
    nodes: &mut Vec<Node>,
    parents: &Places,
    outcomes: &[Option<Outcome>],
    marks: &mut Marks,
    edges: &[Edge],
)
    requires forest { IsForest (sequences_of nodes.old.items) (length outcomes.now) parents.now }
    requires places { (e : Edge) → IsAmong e edges.now → IsPlace (sequences_of nodes.old.items) e }
    ensures sequences { sequences_of nodes.new.items ≡ sequences_of nodes.old.items }
    ensures tells { (top : ℕ) (rest : List Edge)
        → IsUnderWay nodes.old.items outcomes.now (edges.now ++ rest) top (marked marks.old)
        → IsUnderWay nodes.new.items outcomes.now rest top (marked marks.new) }
    ensures falls { count_by is_open nodes.new.items ≤ count_by is_open nodes.old.items }
    ensures more { (m : Member) → marked marks.old m ≡ true → marked marks.new m ≡ true }
{
    for edge in edges {
        if tell(nodes, outcomes, marks, *edge) {
            let above = parents.at(usize::from(edge.sequence));
            tell_all(nodes, parents, outcomes, marks, above);
        }
    }
}

/// What is decided where nothing is settled, over nodes whose members said nothing yet. A node without
/// members is decided from the start, so each sequence tells its places once.
pub(crate) fn begin(
    nodes: &mut Vec<Node>,
    parents: &Places,
    outcomes: &[Option<Outcome>],
    marks: &mut Marks,
)
    requires forest { IsForest (sequences_of nodes.old.items) (length outcomes.now) parents.now }
    ensures sequences { sequences_of nodes.new.items ≡ sequences_of nodes.old.items }
    ensures tells { (top : ℕ)
        → IsUnderWay nodes.old.items outcomes.now (flat_map (λ them. them) parents.now) top (marked marks.old)
        → IsUnderWay nodes.new.items outcomes.now [] top (marked marks.new) }
{
    for number in 0..parents.len() {
        begin_at(nodes, parents, outcomes, marks, number);
    }
}

// The same for one sequence: one that isn't decided has nothing to tell.
fn begin_at(
    nodes: &mut Vec<Node>,
    parents: &Places,
    outcomes: &[Option<Outcome>],
    marks: &mut Marks,
    number: usize,
)
    requires forest { IsForest (sequences_of nodes.old.items) (length outcomes.now) parents.now }
    requires number { number < length parents.now }
    ensures sequences { sequences_of nodes.new.items ≡ sequences_of nodes.old.items }
    ensures tells { (top : ℕ) (rest : List Edge)
        → IsUnderWay nodes.old.items outcomes.now (places_at parents.now number ++ rest) top (marked marks.old)
        → IsUnderWay nodes.new.items outcomes.now rest top (marked marks.new) }
{
    if is_open(nodes.as_slice(), number as u16) {
        return;
    }
    tell_all(nodes, parents, outcomes, marks, parents.at(number));
}
