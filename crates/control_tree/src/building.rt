//! The forest of sequences that names describe.
ghost use Rattle.std.specs.Prelude.{◌≡◌, ◌≤◌, ◌++◌, length, map, IfOk};
ghost use Rattle.hive_model.specs.Valid.{AreDistinctNames};
ghost use Rattle.hive_model.specs.declared.limits.TheConstants.{MOST_ALGORITHMS, MOST_SEQUENCES};
ghost use Rattle.text_model.specs.Forest.{branch_names, forest_of, forest_over};
ghost use Rattle.text_model.specs.Gives.{Gives};
ghost use Rattle.text_model.specs.Names.{number_of as number_among};
ghost use Rattle.text_model.specs.Steps.{or_refuse};
ghost use Rattle.text_model.specs.declared.tree_refusal.TreeRefusal.TheVariants as refusals;
ghost use Rattle.control_tree.specs.Members.{lists};
ghost use Rattle.control_tree.specs.Shape.{AreMembersWithin};

use crate::branch::Branch;
use crate::members::read_members;
use crate::shape::check_shape;
use crate::tree::Tree;
use graph_parts::Names;
use hive_model::{Many, Member, Text};
use std::alloc::{AllocError, Global};
use text_model::TreeRefusal;

/// The forest of these sequences over these algorithms, with the sequence of that name as its top.
///
/// # Errors
///
/// The first refusal that applies, in the order of [`TreeRefusal`] (docs/FORMATS.md, "Refusals of options").
#[tactic(auto, unfolding(text_model::specs::Forest::forest_of))]
pub fn build(
    alloc: Global,
    algorithms: &[Text],
    branches: &[Branch],
    top: &str,
) -> Result<Tree, TreeRefusal>
    requires names { AreDistinctNames (algorithms.now ++ branch_names branches.now) }
    requires few_algorithms { length algorithms.now ≤ MOST_ALGORITHMS }
    requires few_sequences { length branches.now ≤ MOST_SEQUENCES }
    ensures meaning { Gives refusals.NoMemory result (forest_of algorithms.now branches.now top.now) }
{
    let sequences = sequence_names(alloc, branches)?;
    let number = find_top(alloc, &sequences, top)?;
    let algorithms = algorithm_names(alloc, algorithms)?;
    let members = read_members(alloc, &algorithms, &sequences, branches)?;
    build_tree(alloc, branches, members, number)
}

fn algorithm_names(alloc: Global, algorithms: &[Text]) -> Result<Names, AllocError>
    requires { AreDistinctNames algorithms.now }
    ensures { IfOk result (λ it. it ≡ algorithms.now) }
{
    let mut names = Names::new(alloc);
    for name in algorithms {
        names.add(alloc, name.as_str())?;
    }
    Ok(names)
}

fn sequence_names(alloc: Global, branches: &[Branch]) -> Result<Names, AllocError>
    requires { AreDistinctNames (branch_names branches.now) }
    ensures { IfOk result (λ it. it ≡ branch_names branches.now) }
{
    let mut names = Names::new(alloc);
    for branch in branches {
        names.add(alloc, branch.name())?;
    }
    Ok(names)
}

fn find_top(alloc: Global, sequences: &Names, top: &str) -> Result<u16, TreeRefusal>
    requires { length sequences.now ≤ MOST_SEQUENCES }
    ensures { Gives refusals.NoMemory result
        (or_refuse (refusals.UnknownTop top.now) (number_among sequences.now top.now)) }
{
    match sequences.number_of(top) {
        Some(number) => Ok(number as u16),
        None => Err(TreeRefusal::UnknownTop {
            name: Text::from_str(alloc, top)?,
        }),
    }
}

fn build_tree(
    alloc: Global,
    branches: &[Branch],
    members: Vec<Many<Member>>,
    top: u16,
) -> Result<Tree, TreeRefusal>
    requires size { length members.items ≡ length branches.now }
    requires few { length branches.now ≤ MOST_SEQUENCES }
    requires within { AreMembersWithin (length branches.now) (lists members.items) }
    ensures { Gives refusals.NoMemory result (forest_over (branch_names branches.now) (lists members.items) top) }
{
    check_shape(alloc, branches, members.as_slice(), top)?;
    Ok(Tree { members, top })
}
