//! The table of nodes over counts of what the members say (docs/PROCESSING.md, "Decisions").
ghost use Rattle.std.specs.Prelude.{◌≡◌, ◌+◌, ◌-◌, ◌^◌, ◌<◌, ◌≤◌, true, if◌then◌else◌, List, length, replicate};
ghost use Rattle.std.specs.List.{count_by, prefix_len};
ghost use Rattle.decision_nodes.specs.Counting.{IsCounted, IsCountedBefore};
ghost use Rattle.hive_model.specs.Decision.{before_flags, concurrent, fixing, ignored, inverted, is_fixing, is_undecided, leaf_decision, neutral, node_decision, sequential, strict};
ghost use Rattle.hive_model.specs.Reached.{entered, passes};
ghost use Rattle.hive_model.specs.Sequence.{Sequence};

use hive_model::{Decision, Outcome, Sequence};

/// What a node counts of its members: how many are undecided, how many fix it, and how many of the first ones
/// let a sequential node go on.
#[derive(Clone, Copy, Debug)]
pub(crate) struct Counts {
    pub(crate) undecided: usize,
    pub(crate) fixing: usize,
    pub(crate) passed: usize,
}

pub(crate) fn is_undecided(decision: Decision) -> bool
    ensures { result ≡ is_undecided decision }
{
    match decision {
        Decision::True => false,
        Decision::False => false,
        Decision::Undecided => true,
    }
}

// Whether a member's value fixes the node: true for an OR, false for an AND.
pub(crate) fn is_fixing(mode_or: bool, decision: Decision) -> bool
    ensures { result ≡ is_fixing mode_or decision }
{
    match decision {
        Decision::True => mode_or,
        Decision::False => !mode_or,
        Decision::Undecided => false,
    }
}

fn fixing(mode_or: bool) -> Decision
    ensures { result ≡ fixing mode_or }
{
    if mode_or {
        Decision::True
    } else {
        Decision::False
    }
}

fn neutral(mode_or: bool) -> Decision
    ensures { result ≡ neutral mode_or }
{
    if mode_or {
        Decision::False
    } else {
        Decision::True
    }
}

fn inverted(invert: bool, decision: Decision) -> Decision
    ensures { result ≡ inverted invert decision }
{
    if !invert {
        return decision;
    }
    match decision {
        Decision::True => Decision::False,
        Decision::False => Decision::True,
        Decision::Undecided => Decision::Undecided,
    }
}

fn ignored(ignore_filter: bool, decision: Decision) -> Decision
    ensures { result ≡ ignored ignore_filter decision }
{
    if !ignore_filter {
        return decision;
    }
    match decision {
        Decision::True => Decision::True,
        Decision::False => Decision::True,
        Decision::Undecided => Decision::Undecided,
    }
}

/// What a leaf says of its algorithm's outcome.
pub(crate) fn leaf_decision(outcome: Option<Outcome>) -> Decision
    ensures { result ≡ leaf_decision outcome }
{
    match outcome {
        Some(Outcome::Accepted) => Decision::True,
        Some(Outcome::Rejected) => Decision::False,
        Some(Outcome::Failed(_, _)) => Decision::Undecided,
        None => Decision::Undecided,
    }
}

// Whether a sequential node goes on after a member with this decision.
fn passes(sequence: &Sequence, decision: Decision) -> bool
    ensures { result ≡ passes sequence.now decision }
{
    if is_undecided(decision) {
        return false;
    }
    !(sequence.short_circuit && is_fixing(sequence.mode_or, decision))
}

/// How many members from the left a sequential node has passed, where it had passed `passed` before.
pub(crate) fn count_passed(sequence: &Sequence, states: &[Decision], passed: usize) -> usize
    requires { passed ≤ prefix_len (passes sequence.now) states.now }
    ensures { result ≡ prefix_len (passes sequence.now) states.now }
{
    let mut place = passed;
    while place < states.len() && passes(sequence, states[place]) {
        place += 1;
    }
    place
}

/// How many of the members fix the node.
pub(crate) fn count_with(sequence: &Sequence, fixing: usize, decision: Decision) -> usize
    requires { fixing < 2 ^ 64 - 1 }
    ensures { result ≡ (if is_fixing sequence.now.mode_or decision then fixing + 1 else fixing) }
{
    if is_fixing(sequence.mode_or, decision) {
        fixing + 1
    } else {
        fixing
    }
}

// All members have to be decided.
fn strict(mode_or: bool, counts: Counts) -> Decision
    ensures { (states : List Decision) → counts.undecided ≡ count_by is_undecided states
        → counts.fixing ≡ count_by (is_fixing mode_or) states → result ≡ strict mode_or states }
{
    if counts.undecided > 0 {
        return Decision::Undecided;
    }
    if counts.fixing > 0 {
        return fixing(mode_or);
    }
    neutral(mode_or)
}

// One member that fixes is enough.
fn concurrent(mode_or: bool, counts: Counts) -> Decision
    ensures { (states : List Decision) → counts.undecided ≡ count_by is_undecided states
        → counts.fixing ≡ count_by (is_fixing mode_or) states → result ≡ concurrent mode_or states }
{
    if counts.fixing > 0 {
        return fixing(mode_or);
    }
    if counts.undecided > 0 {
        return Decision::Undecided;
    }
    neutral(mode_or)
}

// The first member from the left that is undecided or fixes, which is the first that the node hasn't passed,
// gives its value.
fn sequential(sequence: &Sequence, states: &[Decision], passed: usize) -> Decision
    requires short_circuit { sequence.now.short_circuit ≡ true }
    requires passed { passed ≡ prefix_len (passes sequence.now) states.now }
    ensures { result ≡ sequential sequence.now.mode_or states.now }
{
    if passed < states.len() {
        states[passed]
    } else {
        neutral(sequence.mode_or)
    }
}

// A node's value before `invert` and `ignore_filter`.
fn before_flags(sequence: &Sequence, states: &[Decision], counts: Counts) -> Decision
    requires { IsCounted sequence.now states.now counts }
    ensures { result ≡ before_flags sequence.now states.now }
{
    if !sequence.short_circuit {
        return strict(sequence.mode_or, counts);
    }
    if sequence.sequential {
        return sequential(sequence, states, counts.passed);
    }
    concurrent(sequence.mode_or, counts)
}

/// The decision of a node, where these are its members' and the counts are of them.
#[tactic(auto, unfolding(hive_model::specs::Decision::node_decision))]
pub(crate) fn node_decision(sequence: &Sequence, states: &[Decision], counts: Counts) -> Decision
    requires { IsCounted sequence.now states.now counts }
    ensures { result ≡ node_decision sequence.now states.now }
{
    let plain = before_flags(sequence, states, counts);
    ignored(sequence.ignore_filter, inverted(sequence.invert, plain))
}

/// How many members a reached node enters, which are the first ones.
pub(crate) fn count_entered(sequence: &Sequence, states: &[Decision], counts: Counts) -> usize
    requires counts { IsCounted sequence.now states.now counts }
    requires filled { length states.now ≡ length sequence.now.members }
    ensures { result ≡ length (entered sequence.now states.now) }
{
    if sequence.sequential && counts.passed < states.len() {
        counts.passed + 1
    } else {
        states.len()
    }
}

/// The counts where no member is decided.
pub(crate) fn counts_of_none(members: usize) -> Counts
    ensures { (sequence : Sequence) → IsCounted sequence (replicate members Decision.Undecided) result }
{
    Counts {
        undecided: members,
        fixing: 0,
        passed: 0,
    }
}

/// The counts after one more member is decided: `states` are those with it.
pub(crate) fn counts_with(
    sequence: &Sequence,
    states: &[Decision],
    counts: Counts,
    decision: Decision,
) -> Counts
    requires { IsCountedBefore sequence.now states.now counts decision }
    ensures { IsCounted sequence.now states.now result }
{
    Counts {
        undecided: counts.undecided - 1,
        fixing: count_with(sequence, counts.fixing, decision),
        passed: count_passed(sequence, states, counts.passed),
    }
}
