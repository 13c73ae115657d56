//! The sequences of a job.
ghost use Rattle.std.specs.Prelude.{◌≡◌, ◌++◌, ◌≤◌, length, map, IfOk};
ghost use Rattle.std.specs.List.{zip};
ghost use Rattle.hive_model.specs.Valid.{AreDistinctNames};
ghost use Rattle.text_model.specs.Forest.{forest_of};
ghost use Rattle.text_model.specs.Gives.{Gives};
ghost use Rattle.text_model.specs.JobNames.{algorithm_names, sequence_names};
ghost use Rattle.text_model.specs.Jobs.{branch_of, sequence_with};
ghost use Rattle.text_model.specs.Refusals.{of_tree};
ghost use Rattle.text_model.specs.Steps.{map_err};
ghost use Rattle.text_model.specs.declared.job_refusal.JobRefusal.TheVariants.{NoMemory};

use crate::naming::names_of;
use control_tree::{Branch, Tree};
use hive_model::{Duplicate, MOST_ALGORITHMS, MOST_SEQUENCES, Many, Member, Sequence};
use std::alloc::{AllocError, Global};
use text_model::{JobRefusal, RawOptions, RawSequence};

// The forest of the sequences.
#[tactic(auto, using(crate::proofs::Forests::forests))]
pub(crate) fn forest(alloc: Global, raw: &RawOptions) -> Result<Tree, JobRefusal>
    requires names { AreDistinctNames (algorithm_names raw.now ++ sequence_names raw.now) }
    requires algorithms { length raw.now.algorithms ≤ MOST_ALGORITHMS }
    requires sequences { length raw.now.sequences ≤ MOST_SEQUENCES }
    ensures { Gives NoMemory result (map_err of_tree
        (forest_of (algorithm_names raw.now) (map branch_of raw.now.sequences) raw.now.top)) }
{
    let names = names_of(alloc, raw.algorithms.as_slice())?;
    let branches = branches(alloc, raw.sequences.as_slice())?;
    match control_tree::build(
        alloc,
        names.as_slice(),
        branches.as_slice(),
        raw.top.as_str(),
    ) {
        Ok(tree) => Ok(tree),
        Err(refusal) => Err(JobRefusal::from(refusal)),
    }
}

fn branches(alloc: Global, sequences: &[RawSequence]) -> Result<Vec<Branch>, AllocError>
    ensures { IfOk result (λ it. it.items ≡ map branch_of sequences.now) }
{
    let mut found = Vec::with_capacity(alloc, sequences.len())?;
    for sequence in sequences {
        found.push(branch(alloc, sequence)?)?;
    }
    Ok(found)
}

fn branch(alloc: Global, sequence: &RawSequence) -> Result<Branch, AllocError>
    ensures { IfOk result (λ it. it ≡ branch_of sequence.now) }
{
    Ok(Branch {
        name: sequence.name.copy(alloc)?,
        members: sequence.members.copy(alloc)?,
    })
}

// The sequences with their members by number.
pub(crate) fn sequences(
    alloc: Global,
    raws: &[RawSequence],
    tree: &Tree,
) -> Result<Vec<Sequence>, AllocError>
    requires few { length raws.now ≤ MOST_SEQUENCES }
    requires each { length tree.now.members ≡ length raws.now }
    ensures { IfOk result (λ it. it.items ≡ map sequence_with (zip raws.now tree.now.members)) }
{
    let mut found = Vec::with_capacity(alloc, raws.len())?;
    for (index, raw) in raws.iter().enumerate() {
        let sequence = sequence(alloc, raw, tree.members(index as u16))?;
        found.push(sequence)?;
    }
    Ok(found)
}

fn sequence(alloc: Global, raw: &RawSequence, members: &[Member]) -> Result<Sequence, AllocError>
    ensures { IfOk result (λ it. it ≡ sequence_with (raw.now, members.now)) }
{
    let mut numbers = Vec::with_capacity(alloc, members.len())?;
    numbers.extend_from_slice(members)?;
    Ok(Sequence {
        name: raw.name.copy(alloc)?,
        members: Many::from_vec(numbers),
        mode_or: raw.mode_or,
        short_circuit: raw.short_circuit,
        sequential: raw.sequential,
        invert: raw.invert,
        ignore_filter: raw.ignore_filter,
        cut: raw.cut,
    })
}
