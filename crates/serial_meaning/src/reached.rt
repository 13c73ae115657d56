//! What control flow has reached.
ghost use Rattle.std.specs.Prelude.{◌≡◌, ◌++◌, OnOk, IfOk, map};
ghost use Rattle.std.specs.List.{list_any, prefix_len};
ghost use Rattle.hive_model.specs.Decision.{decision};
ghost use Rattle.hive_model.specs.Reached.{entered, is_leaf_of, is_reached, passes, reached, reached_within};

use crate::decision::{is_fixing, is_undecided, member_decisions, sequence_at};
use hive_model::{Decision, Job, MOST_DEPTH, Member, Outcome, Sequence};
use std::alloc::{AllocError, Global};

// Whether a sequential node goes on after a member with this decision.
fn passes(sequence: &Sequence, decision: Decision) -> bool
    ensures { result ≡ passes sequence.now decision }
{
    if is_undecided(decision) {
        return false;
    }
    if sequence.short_circuit && is_fixing(sequence.mode_or, decision) {
        return false;
    }
    true
}

// How many members, from the first on, a sequential node goes past.
fn count_passed(sequence: &Sequence, decisions: &[Decision]) -> usize
    ensures { result ≡ prefix_len (passes sequence.now) decisions.now }
{
    let mut passed = 0;
    for decision in decisions {
        if !passes(sequence, *decision) {
            return passed;
        }
        passed += 1;
    }
    passed
}

// The members that a reached node enters, where these are the members' decisions.
#[tactic(auto, unfolding(hive_model::specs::Reached::entered))]
fn entered<'a>(sequence: &'a Sequence, decisions: &[Decision]) -> &'a [Member]
    ensures { result.now ≡ entered sequence.now decisions.now }
{
    let members = sequence.members();
    if !sequence.sequential {
        return members;
    }
    let passed = count_passed(sequence, decisions);
    if passed < members.len() {
        &members[..passed + 1]
    } else {
        members
    }
}

// The members that a reached node enters.
fn entered_members<'a>(
    alloc: Global,
    job: &Job,
    outcomes: &[Option<Outcome>],
    sequence: &'a Sequence,
) -> Result<&'a [Member], AllocError>
    ensures { IfOk result (λ it.
        it.now ≡ entered sequence.now (map (decision job.now outcomes.now) sequence.now.members)) }
{
    let decisions = member_decisions(alloc, job, outcomes, sequence.members())?;
    Ok(entered(sequence, decisions.as_slice()))
}

// Appends what is reached from a reached sequence, itself among it, over at most `depth` sequences
// one below the other.
fn reach(
    alloc: Global,
    job: &Job,
    outcomes: &[Option<Outcome>],
    depth: u8,
    number: u16,
    members: &mut Vec<Member>,
) -> Result<(), AllocError>
    ensures { OnOk result (members.new.items
        ≡ members.old.items
        ++ reached_within depth job.now.sequences (decision job.now outcomes.now)
        (Member.Seq number)) }
{
    if depth == 0 {
        return Ok(());
    }
    members.push(Member::Seq(number))?;
    let Some(sequence) = sequence_at(job.sequences(), usize::from(number)) else {
        return Ok(());
    };
    for member in entered_members(alloc, job, outcomes, sequence)? {
        match member {
            Member::Alg(leaf) => members.push(Member::Alg(*leaf))?,
            Member::Seq(below) => reach(alloc, job, outcomes, depth - 1, *below, members)?,
        }
    }
    Ok(())
}

// What is reached, from the top on.
#[tactic(auto, unfolding(hive_model::specs::Reached::reached))]
pub(crate) fn reached(
    alloc: Global,
    job: &Job,
    outcomes: &[Option<Outcome>],
) -> Result<Vec<Member>, AllocError>
    ensures { IfOk result (λ it. it.items ≡ reached job.now outcomes.now) }
{
    let mut members = Vec::new(alloc);
    reach(alloc, job, outcomes, MOST_DEPTH, job.top, &mut members)?;
    Ok(members)
}

fn is_leaf_of(member: Member, number: usize) -> bool
    ensures { result ≡ is_leaf_of number member }
{
    match member {
        Member::Alg(leaf) => usize::from(leaf) == number,
        Member::Seq(_) => false,
    }
}

// Whether the algorithm is reached, where these members are.
pub(crate) fn is_reached(members: &[Member], number: usize) -> bool
    ensures { result ≡ is_reached members.now number }
{
    for member in members {
        if is_leaf_of(*member, number) {
            return true;
        }
    }
    false
}
