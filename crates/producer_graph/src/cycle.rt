//! The algorithms that each one takes from, and the first that takes from itself, by itself or through others.
ghost use Rattle.std.specs.Prelude.{◌≡◌, ◌<◌, length, map, filter_map, get_or, Some, None, IfOk, OnOk, All};
ghost use Rattle.text_model.specs.Gives.{Gives};
ghost use Rattle.text_model.specs.Producers.{data_cycle, handles_of, producers_of, two_producers};
ghost use Rattle.text_model.specs.Steps.{refuse_found};
ghost use Rattle.text_model.specs.declared.graph_refusal.GraphRefusal.TheVariants as refusals;
ghost use Rattle.producer_graph.specs.Acyclic.{NeverWaits};
ghost use Rattle.producer_graph.specs.Lists.{items};
ghost use Rattle.producer_graph.specs.Parts.{taken_by_each};
ghost use Rattle.producer_graph.specs.Sources.{producers_in};

use crate::need::{Need, name_of};
use graph_parts::first_on_cycle;
use hive_model::Text;
use std::alloc::{AllocError, Global};
use text_model::GraphRefusal;

// Refuses the first algorithm on a cycle, where each handle has one producer and each input is a handle.
pub(crate) fn refuse_cycle(
    alloc: Global,
    raws: &[Text],
    needs: &[Need],
    inputs: &[Vec<u16>],
    producers: &[Option<u16>],
) -> Result<(), GraphRefusal>
    requires once { two_producers (handles_of raws.now needs.now) ≡ None }
    requires inputs { items inputs.now ≡ taken_by_each (handles_of raws.now needs.now) needs.now }
    requires producers { producers.now ≡ producers_of raws.now needs.now }
    ensures meaning { Gives refusals.NoMemory result (refuse_found (data_cycle needs.now)) }
    ensures acyclic { OnOk result (NeverWaits needs.now) }
{
    let sources = sources_of_each(alloc, inputs, producers)?;
    match first_on_cycle(alloc, sources.as_slice())? {
        Some(number) => Err(GraphRefusal::DataCycle {
            algorithm: name_of(alloc, needs, number)?,
        }),
        None => Ok(()),
    }
}

// Of each list of handles, their producers.
pub(crate) fn sources_of_each(
    alloc: Global,
    inputs: &[Vec<u16>],
    producers: &[Option<u16>],
) -> Result<Vec<Vec<u16>>, AllocError>
    requires { All (λ v. All (λ h. h < length producers.now) v.items) inputs.now }
    ensures { IfOk result (λ it. items it.items ≡ map (producers_in producers.now) (items inputs.now)) }
{
    let mut each = Vec::with_capacity(alloc, inputs.len())?;
    for of_one in inputs {
        each.push(sources_of(alloc, of_one.as_slice(), producers)?)?;
    }
    Ok(each)
}

fn sources_of(
    alloc: Global,
    inputs: &[u16],
    producers: &[Option<u16>],
) -> Result<Vec<u16>, AllocError>
    requires { All (λ h. h < length producers.now) inputs.now }
    ensures { IfOk result (λ it. it.items ≡ producers_in producers.now inputs.now) }
{
    let mut sources = Vec::new(alloc);
    for handle in inputs {
        if let Some(number) = producers[*handle as usize] {
            sources.push(number)?;
        }
    }
    Ok(sources)
}
