//! What algorithms take and produce, by name.
ghost use Rattle.std.specs.Prelude.{◌≡◌, map, length, nat_lt, IfOk};
ghost use Rattle.text_model.specs.Jobs.{need_of};
ghost use Rattle.text_model.specs.Producers.{handles_of};

use crate::naming::names_of;
use hive_model::{Duplicate, MOST_HANDLES, Many, Text};
use producer_graph::Need;
use std::alloc::{AllocError, Global};
use text_model::RawAlgorithm;

// What each algorithm takes and produces.
pub(crate) fn needs(alloc: Global, algorithms: &[RawAlgorithm]) -> Result<Vec<Need>, AllocError>
    ensures { IfOk result (λ it. it.items ≡ map need_of algorithms.now) }
{
    let mut found = Vec::with_capacity(alloc, algorithms.len())?;
    for algorithm in algorithms {
        found.push(need(alloc, algorithm)?)?;
    }
    Ok(found)
}

fn need(alloc: Global, algorithm: &RawAlgorithm) -> Result<Need, AllocError>
    ensures { IfOk result (λ it. it ≡ need_of algorithm.now) }
{
    let outputs = names_of(alloc, algorithm.outputs.as_slice())?;
    Ok(Need {
        name: algorithm.name.copy(alloc)?,
        inputs: algorithm.inputs.copy(alloc)?,
        outputs: Many::from_vec(outputs),
    })
}

// Whether there are over 1,024 handles in all.
pub(crate) fn has_too_many_handles(raws: &[Text], needs: &[Need]) -> bool
    ensures { result ≡ nat_lt MOST_HANDLES (length (handles_of raws.now needs.now)) }
{
    let mut count = raws.len();
    for need in needs {
        count = count.saturating_add(need.outputs.as_slice().len());
    }
    count > MOST_HANDLES
}
