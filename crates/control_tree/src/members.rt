//! Members by their numbers.
ghost use Rattle.std.specs.Prelude.{◌≡◌, ◌≢◌, ◌≤◌, length, IfOk, IfErr, Some, None};
ghost use Rattle.hive_model.specs.declared.limits.TheConstants.{MOST_ALGORITHMS, MOST_SEQUENCES};
ghost use Rattle.text_model.specs.Forest.{member_named as member_of};
ghost use Rattle.control_tree.specs.Members.{lists, members_in, numbered, unknown_among, unknown_in};
ghost use Rattle.text_model.specs.declared.tree_refusal.TreeRefusal.TheVariants as refusals;

use crate::branch::Branch;
use graph_parts::Names;
use hive_model::{Duplicate, Many, Member};
use std::alloc::Global;
use text_model::TreeRefusal;

// The members of all sequences, or the first that is neither an algorithm nor a sequence.
pub(crate) fn read_members(
    alloc: Global,
    algorithms: &Names,
    sequences: &Names,
    branches: &[Branch],
) -> Result<Vec<Many<Member>>, TreeRefusal>
    requires few_algorithms { length algorithms.now ≤ MOST_ALGORITHMS }
    requires few_sequences { length sequences.now ≤ MOST_SEQUENCES }
    ensures ok { IfOk result (λ it. (unknown_among algorithms.now sequences.now branches.now ≡ None)
        × (lists it.items ≡ numbered algorithms.now sequences.now branches.now)) }
    ensures err { IfErr result (λ e. e ≢ refusals.NoMemory
        → unknown_among algorithms.now sequences.now branches.now ≡ Some e) }
{
    let mut all = Vec::with_capacity(alloc, branches.len())?;
    for branch in branches {
        let members = read_branch(alloc, algorithms, sequences, branch)?;
        all.push(members)?;
    }
    Ok(all)
}

fn read_branch(
    alloc: Global,
    algorithms: &Names,
    sequences: &Names,
    branch: &Branch,
) -> Result<Many<Member>, TreeRefusal>
    requires few_algorithms { length algorithms.now ≤ MOST_ALGORITHMS }
    requires few_sequences { length sequences.now ≤ MOST_SEQUENCES }
    ensures ok { IfOk result (λ it. (unknown_in algorithms.now sequences.now branch.now ≡ None)
        × (it.items ≡ members_in algorithms.now sequences.now branch.now)) }
    ensures err { IfErr result (λ e. e ≢ refusals.NoMemory
        → unknown_in algorithms.now sequences.now branch.now ≡ Some e) }
{
    let mut members = Vec::with_capacity(alloc, branch.members().len())?;
    for name in branch.members() {
        match member_named(algorithms, sequences, name.as_str()) {
            Some(member) => members.push(member)?,
            None => {
                return Err(TreeRefusal::UnknownMember {
                    sequence: branch.name.copy(alloc)?,
                    name: name.copy(alloc)?,
                });
            }
        }
    }
    Ok(Many::from_vec(members))
}

fn member_named(algorithms: &Names, sequences: &Names, name: &str) -> Option<Member>
    requires few_algorithms { length algorithms.now ≤ MOST_ALGORITHMS }
    requires few_sequences { length sequences.now ≤ MOST_SEQUENCES }
    ensures { result ≡ member_of algorithms.now sequences.now name.now }
{
    if let Some(number) = algorithms.number_of(name) {
        return Some(Member::Alg(number as u16));
    }
    let number = sequences.number_of(name)?;
    Some(Member::Seq(number as u16))
}
