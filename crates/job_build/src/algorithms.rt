//! The algorithms of a job.
ghost use Rattle.std.specs.Prelude.{codes, ◌≡◌, ◌+◌, ◌≤◌, length};
ghost use Rattle.std.specs.List.{flat_map};
ghost use Rattle.job_build.specs.Found.{GivesItems};
ghost use Rattle.text_model.specs.Gives.{Gives};
ghost use Rattle.text_model.specs.JobAlgorithms.{algorithm_at, algorithms_from};
ghost use Rattle.text_model.specs.RawOptions.{RawAlgorithm as AlgorithmTold};
ghost use Rattle.text_model.specs.ValuePaths.{numbered as numbered_told};
ghost use Rattle.text_model.specs.declared.job_refusal.JobRefusal.TheVariants.{NoMemory};

use crate::expressions::{filter, outputs};
use crate::scope::{Scope, handles_in, numbers_of, push_outputs, resource_numbers};
use hive_model::{Algorithm, Duplicate, MOST_HANDLES, Many};
use job_options::numbered;
use std::alloc::Global;
use text_model::{JobRefusal, RawAlgorithm, RawOptions};

// The algorithms, whose outputs begin behind the raw handles; there is room for them.
pub(crate) fn all_algorithms(
    alloc: Global,
    scope: &Scope,
    raw: &RawOptions,
) -> Result<Vec<Algorithm>, JobRefusal>
    requires { length raw.now.raws + length (flat_map (λ (a : AlgorithmTold). a.outputs) raw.now.algorithms)
        ≤ MOST_HANDLES }
    ensures { GivesItems result
        (algorithms_from scope.now 1 (length raw.now.raws) raw.now.algorithms) }
{
    let first = raw.raws.as_slice().len() as u16;
    algorithms(alloc, scope, first, raw.algorithms.as_slice())
}

#[tactic(auto, unfolding(text_model::specs::JobAlgorithms::algorithms_from))]
fn algorithms(
    alloc: Global,
    scope: &Scope,
    first: u16,
    raws: &[RawAlgorithm],
) -> Result<Vec<Algorithm>, JobRefusal>
    requires { first + length (flat_map (λ (a : AlgorithmTold). a.outputs) raws.now) ≤ MOST_HANDLES }
    ensures { GivesItems result (algorithms_from scope.now 1 first raws.now) }
{
    let mut found = Vec::with_capacity(alloc, raws.len())?;
    let mut next = first;
    for (index, raw) in raws.iter().enumerate() {
        let algorithm = algorithm(alloc, scope, index + 1, next, raw)?;
        found.push(algorithm)?;
        next += raw.outputs.as_slice().len() as u16;
    }
    Ok(found)
}

#[tactic(auto, unfolding(text_model::specs::JobAlgorithms::algorithm_at))]
fn algorithm(
    alloc: Global,
    scope: &Scope,
    number: usize,
    first: u16,
    raw: &RawAlgorithm,
) -> Result<Algorithm, JobRefusal>
    requires { first + length raw.now.outputs ≤ MOST_HANDLES }
    ensures { Gives NoMemory result
        (algorithm_at scope.now (numbered_told (codes "algorithm") number) first raw.now) }
{
    let path = numbered(alloc, "algorithm", number)?;
    let mut handles = handles_in(alloc, scope, raw.inputs.as_slice())?;
    let inputs = numbers_of(alloc, handles.as_slice())?;
    push_outputs(alloc, &mut handles, first, raw.outputs.as_slice())?;
    let seen = handles.as_slice();
    let outputs = outputs(
        alloc,
        path.as_str(),
        seen,
        inputs.len(),
        raw.outputs.as_slice(),
    )?;
    let filter = filter(alloc, path.as_str(), seen, &raw.filter)?;
    let resources = resource_numbers(alloc, scope.resources(), raw.resources.as_slice())?;
    Ok(Algorithm {
        name: raw.name.copy(alloc)?,
        cardinality: raw.cardinality,
        resources: Many::from_vec(resources),
        inputs: Many::from_vec(inputs),
        first_output: first,
        outputs: Many::from_vec(outputs),
        filter,
    })
}
