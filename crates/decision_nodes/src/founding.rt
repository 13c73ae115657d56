//! The parts of a new table.
ghost use Rattle.std.specs.Prelude.{◌≡◌, ℕ, ◌+◌, ◌<◌, ◌≤◌, ◌^◌, None, IfOk, OnOk, Some, length, map, replicate, slice_get};
ghost use Rattle.decision_nodes.specs.Index.{IsIn, IsIndex, StandsAt};
ghost use Rattle.decision_nodes.specs.Founding.{AddsMember, AddsMembers};
ghost use Rattle.decision_nodes.specs.Standing.{fresh};

use crate::edge::{Edge, Places};
use crate::node::Node;
use hive_model::{MOST_SEQUENCES, Member, Outcome, Sequence};
use std::alloc::{AllocError, Global};

/// Where the algorithms are members, and where the sequences are.
#[derive(Drop)]
pub(crate) struct Index {
    pub(crate) leaves: Places,
    pub(crate) parents: Places,
}

/// A node for each sequence, whose members said nothing yet. The only error is running out of memory.
pub(crate) fn copy_nodes(alloc: Global, sequences: &[Sequence]) -> Result<Vec<Node>, AllocError>
    ensures { IfOk result (λ it. it.items ≡ map fresh sequences.now) }
{
    let mut nodes = Vec::with_capacity(alloc, sequences.len())?;
    for sequence in sequences {
        nodes.push(Node::new(alloc, sequence)?)?;
    }
    Ok(nodes)
}

/// No outcome for any algorithm. The only error is running out of memory.
pub(crate) fn no_outcomes(alloc: Global, count: usize) -> Result<Vec<Option<Outcome>>, AllocError>
    ensures { IfOk result (λ it. it.items ≡ replicate count None) }
{
    let mut outcomes = Vec::with_capacity(alloc, count)?;
    for _number in 0..count {
        outcomes.push(None)?;
    }
    Ok(outcomes)
}

fn add(index: &mut Index, member: Member, edge: Edge) -> Result<(), AllocError>
    requires { IsIn (length index.old.leaves) (length index.old.parents) member }
    ensures { OnOk result
        (AddsMember index.old.leaves index.old.parents member edge index.new.leaves index.new.parents) }
{
    match member {
        Member::Alg(number) => index.leaves.add(usize::from(number), edge)?,
        Member::Seq(number) => index.parents.add(usize::from(number), edge)?,
    }
    Ok(())
}

fn add_members(index: &mut Index, sequence: u16, members: &[Member]) -> Result<(), AllocError>
    requires { (i : ℕ) (m : Member) → slice_get members.now i ≡ Some m
        → IsIn (length index.old.leaves) (length index.old.parents) m }
    ensures { OnOk result
        (AddsMembers index.old.leaves index.old.parents sequence members.now
        index.new.leaves index.new.parents) }
{
    for (place, member) in members.iter().enumerate() {
        add(index, *member, Edge { sequence, place })?;
    }
    Ok(())
}

/// The places of all members. The only error is running out of memory.
pub(crate) fn index_of(
    alloc: Global,
    sequences: &[Sequence],
    algorithms: usize,
) -> Result<Index, AllocError>
    requires few { length sequences.now ≤ MOST_SEQUENCES }
    requires members { (e : Edge) (m : Member) → StandsAt sequences.now e m
        → IsIn algorithms (length sequences.now) m }
    ensures index { IfOk result (λ it. IsIndex sequences.now it.leaves it.parents) }
    ensures leaves { IfOk result (λ it. length it.leaves ≡ algorithms) }
    ensures parents { IfOk result (λ it. length it.parents ≡ length sequences.now) }
{
    let leaves = Places::new(alloc, algorithms)?;
    let parents = Places::new(alloc, sequences.len())?;
    let mut index = Index { leaves, parents };
    for (number, sequence) in sequences.iter().enumerate() {
        add_members(&mut index, number as u16, sequence.members())?;
    }
    Ok(index)
}
