//! The checks of names.
ghost use Rattle.std.specs.Prelude.{◌≡◌, ◌++◌, [], false, true, codes, IfOk};
ghost use Rattle.std.specs.List.{enumerate_from};
ghost use Rattle.std.specs.Option.{option_or};
ghost use Rattle.job_build.specs.Repeated.{placed, repeat_behind, resources_behind};
ghost use Rattle.job_build.specs.Found.{Finds};
ghost use Rattle.text_model.specs.JobNames.{algorithm_names, at_keys, names_refusal, refusal_of_algorithm, repeat_of, resource_names, sequence_names};
ghost use Rattle.text_model.specs.Steps.{find_map};

use crate::naming::names_of;
use crate::repeats::{add_names, check_resources};
use graph_parts::Names;
use hive_model::Text;
use job_options::{below, numbered};
use std::alloc::Global;
use text_model::{JobRefusal, RawAlgorithm, RawOptions};

// The names of the resources, where no name is refused.
#[tactic(auto, unfolding(text_model::specs::JobNames::names_refusal))]
pub(crate) fn checked_resources(alloc: Global, raw: &RawOptions) -> Result<Names, JobRefusal>
    ensures found { Finds result (names_refusal raw.now) }
    ensures names { IfOk result (λ it. it ≡ resource_names raw.now) }
{
    let resources = resource_set(alloc, raw)?;
    check_members(alloc, raw)?;
    check_algorithms(alloc, &resources, raw.algorithms.as_slice())?;
    Ok(resources)
}

#[tactic(auto, using(crate::proofs::Repetitions::repeats))]
fn resource_set(alloc: Global, raw: &RawOptions) -> Result<Names, JobRefusal>
    ensures found { Finds result (repeat_of (at_keys (codes "resource") (resource_names raw.now))) }
    ensures names { IfOk result (λ it. it ≡ resource_names raw.now) }
{
    let names = names_of(alloc, raw.resources.as_slice())?;
    let mut seen = Names::new(alloc);
    add_names(alloc, &mut seen, true, "resource", names.as_slice())?;
    Ok(seen)
}

fn check_members(alloc: Global, raw: &RawOptions) -> Result<(), JobRefusal>
    ensures { Finds result (repeat_of (at_keys (codes "algorithm") (algorithm_names raw.now)
        ++ at_keys (codes "sequence") (sequence_names raw.now))) }
{
    let algorithms = names_of(alloc, raw.algorithms.as_slice())?;
    let sequences = names_of(alloc, raw.sequences.as_slice())?;
    check_both(alloc, algorithms.as_slice(), sequences.as_slice())
}

// The names of the algorithms and then of the sequences, each at the key of its table.
fn check_both(alloc: Global, algorithms: &[Text], sequences: &[Text]) -> Result<(), JobRefusal>
    ensures { Finds result (option_or
        (repeat_behind [] (placed true (codes "algorithm") 1 algorithms.now))
        (repeat_behind algorithms.now (placed true (codes "sequence") 1 sequences.now))) }
{
    let mut seen = Names::new(alloc);
    add_names(alloc, &mut seen, true, "algorithm", algorithms)?;
    add_names(alloc, &mut seen, true, "sequence", sequences)
}

fn check_algorithms(
    alloc: Global,
    resources: &Names,
    algorithms: &[RawAlgorithm],
) -> Result<(), JobRefusal>
    ensures { Finds result
        (find_map (refusal_of_algorithm resources.now) (enumerate_from 1 algorithms.now)) }
{
    for (index, algorithm) in algorithms.iter().enumerate() {
        check_algorithm(alloc, resources, index + 1, algorithm)?;
    }
    Ok(())
}

#[tactic(auto, using(crate::proofs::Repetitions::algorithm_lists))]
fn check_algorithm(
    alloc: Global,
    resources: &Names,
    number: usize,
    algorithm: &RawAlgorithm,
) -> Result<(), JobRefusal>
    ensures { Finds result (refusal_of_algorithm resources.now (number, algorithm.now)) }
{
    let path = numbered(alloc, "algorithm", number)?;
    let inputs = below(alloc, path.as_str(), "inputs")?;
    let listed = below(alloc, path.as_str(), "resources")?;
    check_lists(
        alloc,
        resources,
        inputs.as_str(),
        listed.as_str(),
        algorithm,
    )
}

// The inputs of an algorithm and then its resources, each at the path of its array.
fn check_lists(
    alloc: Global,
    resources: &Names,
    inputs: &str,
    listed: &str,
    algorithm: &RawAlgorithm,
) -> Result<(), JobRefusal>
    ensures { Finds result (option_or
        (repeat_behind [] (placed false inputs.now 1 algorithm.now.inputs))
        (resources_behind resources.now [] (placed false listed.now 1 algorithm.now.resources))) }
{
    let mut seen = Names::new(alloc);
    add_names(alloc, &mut seen, false, inputs, algorithm.inputs.as_slice())?;
    check_resources(alloc, resources, listed, algorithm.resources.as_slice())
}
