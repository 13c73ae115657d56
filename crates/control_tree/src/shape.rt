//! The shape of a forest whose members are known.
ghost use Rattle.std.specs.Prelude.{◌≡◌, ◌≢◌, ◌<◌, length, map, nat_lt, IfErr, OnOk, Ok, Err, All};
ghost use Rattle.hive_model.specs.declared.limits.TheConstants.{MOST_LEAVES};
ghost use Rattle.graph_parts.specs.Links.{AreWithin, links};
ghost use Rattle.text_model.specs.Forest.{all_of, branch_names, forest_over, leaves_in};
ghost use Rattle.text_model.specs.Gives.{Gives};
ghost use Rattle.text_model.specs.declared.tree_refusal.TreeRefusal.TheVariants as refusals;
ghost use Rattle.control_tree.specs.Members.{lists};
ghost use Rattle.control_tree.specs.Shape.{AreMembersWithin, has_shape, no_sequence_is_below_itself, no_sequence_is_shared, no_sequence_is_too_deep};

use crate::branch::{Branch, name_of};
use crate::leaves::has_too_many_leaves;
use crate::repeated::first_repeated;
use crate::sequences::{joined, sequences_of_each};
use graph_parts::{first_deeper, first_on_cycle};
use hive_model::{MOST_DEPTH, Many, Member};
use std::alloc::Global;
use text_model::TreeRefusal;

// The first refusal of a forest with that top, if there is one.
pub(crate) fn check_shape(
    alloc: Global,
    branches: &[Branch],
    members: &[Many<Member>],
    top: u16,
) -> Result<(), TreeRefusal>
    requires size { length members.now ≡ length branches.now }
    requires within { AreMembersWithin (length branches.now) (lists members.now) }
    ensures ok { OnOk result (forest_over (branch_names branches.now) (lists members.now) top
        ≡ Ok (record { members = lists members.now; top = top })) }
    ensures err { IfErr result (λ e. e ≢ refusals.NoMemory
        → forest_over (branch_names branches.now) (lists members.now) top ≡ Err e) }
{
    let below = sequences_of_each(alloc, members)?;
    let all = joined(alloc, below.as_slice())?;
    let many = has_too_many_leaves(members);
    check_sequences(alloc, branches, below.as_slice(), all.as_slice(), top, many)
}

#[tactic(auto, unfolding(crate::specs::Shape::has_shape))]
fn check_sequences(
    alloc: Global,
    branches: &[Branch],
    below: &[Vec<u16>],
    all: &[u16],
    top: u16,
    many: bool,
) -> Result<(), TreeRefusal>
    requires size { length below.now ≡ length branches.now }
    requires below { AreWithin below.now }
    requires all { All (λ s. s < length branches.now) all.now }
    ensures { Gives refusals.NoMemory result
        (has_shape (branch_names branches.now) (links below.now) (length below.now) all.now top many) }
{
    refuse_shared(alloc, branches, all)?;
    refuse_cycle(alloc, branches, below)?;
    if all.contains(&top) {
        return Err(TreeRefusal::TopIsMember);
    }
    refuse_deep(alloc, branches, below)?;
    if many {
        return Err(TreeRefusal::TooManyLeaves);
    }
    Ok(())
}

fn refuse_shared(alloc: Global, branches: &[Branch], all: &[u16]) -> Result<(), TreeRefusal>
    requires { All (λ s. s < length branches.now) all.now }
    ensures { Gives refusals.NoMemory result (no_sequence_is_shared (branch_names branches.now) all.now) }
{
    match first_repeated(alloc, all, branches.len())? {
        Some(number) => Err(TreeRefusal::SharedSequence {
            sequence: name_of(alloc, branches, number as usize)?,
        }),
        None => Ok(()),
    }
}

fn refuse_cycle(alloc: Global, branches: &[Branch], below: &[Vec<u16>]) -> Result<(), TreeRefusal>
    requires size { length below.now ≡ length branches.now }
    requires below { AreWithin below.now }
    ensures { Gives refusals.NoMemory result
        (no_sequence_is_below_itself (branch_names branches.now) (links below.now) (length below.now)) }
{
    match first_on_cycle(alloc, below)? {
        Some(number) => Err(TreeRefusal::SequenceCycle {
            sequence: name_of(alloc, branches, number)?,
        }),
        None => Ok(()),
    }
}

fn refuse_deep(alloc: Global, branches: &[Branch], below: &[Vec<u16>]) -> Result<(), TreeRefusal>
    requires size { length below.now ≡ length branches.now }
    requires below { AreWithin below.now }
    ensures { Gives refusals.NoMemory result
        (no_sequence_is_too_deep (branch_names branches.now) (links below.now) (length below.now)) }
{
    match first_deeper(alloc, below, MOST_DEPTH)? {
        Some(number) => Err(TreeRefusal::TooDeep {
            sequence: name_of(alloc, branches, number)?,
        }),
        None => Ok(()),
    }
}
