//! Decisions of nodes.
ghost use Rattle.std.specs.Prelude.{◌≡◌, IfOk, MatchOption, Some, None, map, slice_get};
ghost use Rattle.std.specs.List.{list_any, range_with_len};
ghost use Rattle.hive_model.specs.Decision.{before_flags, concurrent, decision, decision_within, fixing, ignored, inverted, is_fixing, is_undecided, leaf_decision, neutral, node_decision, sequential, strict};
ghost use Rattle.hive_model.specs.Event.{decisions_of};
ghost use Rattle.hive_model.specs.Results.{outcome_at};

use crate::store::outcome_at;
use hive_model::{Decision, Job, MOST_DEPTH, Member, Outcome, Sequence};
use std::alloc::{AllocError, Global};

// A leaf tells its algorithm's outcome.
fn leaf_decision(outcomes: &[Option<Outcome>], number: u16) -> Decision
    ensures { result ≡ leaf_decision (outcome_at outcomes.now number) }
{
    match outcome_at(outcomes, usize::from(number)) {
        Some(Outcome::Accepted) => Decision::True,
        Some(Outcome::Rejected) => Decision::False,
        Some(Outcome::Failed(_, _)) => Decision::Undecided,
        None => Decision::Undecided,
    }
}

pub(crate) fn is_undecided(decision: Decision) -> bool
    ensures { result ≡ is_undecided decision }
{
    match decision {
        Decision::True => false,
        Decision::False => false,
        Decision::Undecided => true,
    }
}

// Whether a member's value fixes the node: true for an OR, false for an AND.
pub(crate) fn is_fixing(mode_or: bool, decision: Decision) -> bool
    ensures { result ≡ is_fixing mode_or decision }
{
    match decision {
        Decision::True => mode_or,
        Decision::False => !mode_or,
        Decision::Undecided => false,
    }
}

fn fixing(mode_or: bool) -> Decision
    ensures { result ≡ fixing mode_or }
{
    if mode_or {
        Decision::True
    } else {
        Decision::False
    }
}

fn neutral(mode_or: bool) -> Decision
    ensures { result ≡ neutral mode_or }
{
    if mode_or {
        Decision::False
    } else {
        Decision::True
    }
}

fn any_undecided(members: &[Decision]) -> bool
    ensures { result ≡ list_any is_undecided members.now }
{
    for member in members {
        if is_undecided(*member) {
            return true;
        }
    }
    false
}

fn any_fixing(mode_or: bool, members: &[Decision]) -> bool
    ensures { result ≡ list_any (is_fixing mode_or) members.now }
{
    for member in members {
        if is_fixing(mode_or, *member) {
            return true;
        }
    }
    false
}

// All members have to be decided.
fn strict(mode_or: bool, members: &[Decision]) -> Decision
    ensures { result ≡ strict mode_or members.now }
{
    if any_undecided(members) {
        return Decision::Undecided;
    }
    if any_fixing(mode_or, members) {
        return fixing(mode_or);
    }
    neutral(mode_or)
}

// One member that fixes is enough.
fn concurrent(mode_or: bool, members: &[Decision]) -> Decision
    ensures { result ≡ concurrent mode_or members.now }
{
    if any_fixing(mode_or, members) {
        return fixing(mode_or);
    }
    if any_undecided(members) {
        return Decision::Undecided;
    }
    neutral(mode_or)
}

// The first member from the left that is undecided or fixes gives its value.
fn sequential(mode_or: bool, members: &[Decision]) -> Decision
    ensures { result ≡ sequential mode_or members.now }
{
    for member in members {
        if is_undecided(*member) || is_fixing(mode_or, *member) {
            return *member;
        }
    }
    neutral(mode_or)
}

fn inverted(invert: bool, decision: Decision) -> Decision
    ensures { result ≡ inverted invert decision }
{
    if !invert {
        return decision;
    }
    match decision {
        Decision::True => Decision::False,
        Decision::False => Decision::True,
        Decision::Undecided => Decision::Undecided,
    }
}

fn ignored(ignore_filter: bool, decision: Decision) -> Decision
    ensures { result ≡ ignored ignore_filter decision }
{
    if !ignore_filter {
        return decision;
    }
    match decision {
        Decision::True => Decision::True,
        Decision::False => Decision::True,
        Decision::Undecided => Decision::Undecided,
    }
}

// A node's value before `invert` and `ignore_filter`.
fn before_flags(sequence: &Sequence, members: &[Decision]) -> Decision
    ensures { result ≡ before_flags sequence.now members.now }
{
    if !sequence.short_circuit {
        return strict(sequence.mode_or, members);
    }
    if sequence.sequential {
        return sequential(sequence.mode_or, members);
    }
    concurrent(sequence.mode_or, members)
}

// The decision of a node by those of its members (docs/PROCESSING.md, "Decisions").
#[tactic(auto, unfolding(hive_model::specs::Decision::node_decision))]
fn node_decision(sequence: &Sequence, members: &[Decision]) -> Decision
    ensures { result ≡ node_decision sequence.now members.now }
{
    let plain = before_flags(sequence, members);
    ignored(sequence.ignore_filter, inverted(sequence.invert, plain))
}

pub(crate) fn sequence_at(sequences: &[Sequence], number: usize) -> Option<&Sequence>
    ensures { MatchOption result (slice_get sequences.now number ≡ None)
        (λ q. slice_get sequences.now number ≡ Some q.now) }
{
    sequences.get(number)
}

// The decision of a sequence, over at most `depth` sequences one below the other.
fn decision_within(
    alloc: Global,
    sequences: &[Sequence],
    outcomes: &[Option<Outcome>],
    depth: u8,
    number: usize,
) -> Result<Decision, AllocError>
    ensures { IfOk result (λ it.
        it ≡ decision_within depth sequences.now outcomes.now (Member.Seq number)) }
{
    if depth == 0 {
        return Ok(Decision::Undecided);
    }
    let Some(sequence) = sequence_at(sequences, number) else {
        return Ok(Decision::Undecided);
    };
    let mut decisions = Vec::new(alloc);
    for member in sequence.members() {
        let decision = match member {
            Member::Alg(leaf) => leaf_decision(outcomes, *leaf),
            Member::Seq(below) => {
                decision_within(alloc, sequences, outcomes, depth - 1, usize::from(*below))?
            }
        };
        decisions.push(decision)?;
    }
    Ok(node_decision(sequence, decisions.as_slice()))
}

// The decision of a sequence.
#[tactic(auto, unfolding(hive_model::specs::Decision::decision))]
pub(crate) fn sequence_decision(
    alloc: Global,
    job: &Job,
    outcomes: &[Option<Outcome>],
    number: usize,
) -> Result<Decision, AllocError>
    ensures { IfOk result (λ it. it ≡ decision job.now outcomes.now (Member.Seq number)) }
{
    let sequences = job.sequences();
    Ok(decision_within(alloc, sequences, outcomes, MOST_DEPTH, number)?)
}

fn decision(
    alloc: Global,
    job: &Job,
    outcomes: &[Option<Outcome>],
    member: Member,
) -> Result<Decision, AllocError>
    ensures { IfOk result (λ it. it ≡ decision job.now outcomes.now member) }
{
    match member {
        Member::Alg(leaf) => Ok(leaf_decision(outcomes, leaf)),
        Member::Seq(below) => {
            let below = usize::from(below);
            Ok(sequence_decision(alloc, job, outcomes, below)?)
        }
    }
}

// The decisions of members.
pub(crate) fn member_decisions(
    alloc: Global,
    job: &Job,
    outcomes: &[Option<Outcome>],
    members: &[Member],
) -> Result<Vec<Decision>, AllocError>
    ensures { IfOk result (λ it. it.items ≡ map (decision job.now outcomes.now) members.now) }
{
    let mut decisions = Vec::new(alloc);
    for member in members {
        decisions.push(decision(alloc, job, outcomes, *member)?)?;
    }
    Ok(decisions)
}

// The decision of each sequence, in written order.
pub(crate) fn decisions_of(
    alloc: Global,
    job: &Job,
    outcomes: &[Option<Outcome>],
) -> Result<Vec<Decision>, AllocError>
    ensures { IfOk result (λ it. it.items ≡ decisions_of job.now outcomes.now) }
{
    let mut decisions = Vec::new(alloc);
    for number in 0..job.sequences().len() {
        decisions.push(sequence_decision(alloc, job, outcomes, number)?)?;
    }
    Ok(decisions)
}
