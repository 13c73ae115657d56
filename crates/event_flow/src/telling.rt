//! What is told of an event.
ghost use Rattle.std.specs.Prelude.{◌≡◌, ◌≤◌, ◌<◌, ◌+◌, ◌++◌, ◌∷◌, [], length, not};
ghost use Rattle.hive_model.specs.Event.{end_by, end_unrun};
ghost use Rattle.hive_model.specs.Results.{outcome_at};
ghost use Rattle.decision_nodes.specs.Tree.{is_reached_in, is_withdrawn_in};
ghost use Rattle.event_flow.specs.Telling.{decisions_by, end_said, ends_by};

use algo_states::StateTable;
use decision_nodes::TreeTable;
use hive_model::{Decision, End, Many, Outcome};

/// Appends the decisions of so many sequences, all that there are.
pub(crate) fn tell_decisions(tree: &TreeTable, nodes: u16, into: &mut Many<Decision>)
    requires all { nodes ≡ length tree.now.sequences }
    requires room { nodes ≤ into.old.spare }
    ensures { into.new.items ≡ into.old.items ++ decisions_by tree.now nodes }
{
    for sequence in 0..nodes {
        put(into, tree.decision(sequence));
    }
}

/// Appends the ends of so many algorithms, all that there are.
pub(crate) fn tell_ends(tree: &TreeTable, states: &StateTable, count: u16, into: &mut Many<End>)
    requires all { count ≡ length tree.now.outcomes }
    requires room { count ≤ into.old.spare }
    ensures { into.new.items ≡ into.old.items ++ ends_by tree.now states.now count }
{
    for number in 0..count {
        put(into, end_at(tree, states, number));
    }
}

// Appends to a list that has room.
fn put<T: Drop>(list: &mut Many<T>, value: T)
    requires { 0 < list.old.spare }
    ensures items { list.new.items ≡ list.old.items ++ value ∷ [] }
    ensures spare { list.new.spare + 1 ≡ list.old.spare }
{
    match list.push(value) {
        Ok(()) => {}
        Err(_failed) => unreachable!(),
    }
}

fn end_at(tree: &TreeTable, states: &StateTable, algorithm: u16) -> End
    requires { algorithm < length tree.now.outcomes }
    ensures { result ≡ end_said tree.now states.now algorithm }
{
    let reached = tree.reached(algorithm);
    let withdrawn = tree.withdrawn(algorithm);
    end_by(reached, !withdrawn, states.outcome(algorithm))
}

fn end_by(entered: bool, live: bool, outcome: Option<Outcome>) -> End
    ensures { result ≡ end_by entered live outcome }
{
    match outcome {
        Some(Outcome::Accepted) => End::Accepted,
        Some(Outcome::Rejected) => End::Rejected,
        Some(Outcome::Failed(place, fault)) => End::Failed(place, fault),
        None => end_unrun(entered, live),
    }
}

fn end_unrun(entered: bool, live: bool) -> End
    ensures { result ≡ end_unrun entered live }
{
    if !entered {
        End::Initial
    } else if live {
        End::ControlReady
    } else {
        End::Withdrawn
    }
}
