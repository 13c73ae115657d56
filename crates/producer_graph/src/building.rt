//! The graph of handles that names describe.
ghost use Rattle.std.specs.Prelude.{◌≡◌, ◌≤◌, length, None, OnOk};
ghost use Rattle.hive_model.specs.declared.limits.TheConstants.{MOST_ALGORITHMS, MOST_HANDLES};
ghost use Rattle.text_model.specs.Gives.{Gives};
ghost use Rattle.text_model.specs.Producers.{data_cycle, graph_of, handles_of, two_producers};
ghost use Rattle.text_model.specs.declared.graph_refusal.GraphRefusal.TheVariants as refusals;
ghost use Rattle.producer_graph.specs.Acyclic.{NeverWaits, graph_unless_cyclic};
ghost use Rattle.producer_graph.specs.Lists.{items};
ghost use Rattle.producer_graph.specs.Parts.{taken_by_each};

use crate::consumers::list_consumers;
use crate::cycle::refuse_cycle;
use crate::graph::Graph;
use crate::handles::read_handles;
use crate::inputs::read_inputs;
use crate::need::Need;
use crate::producers::list_producers;
use graph_parts::Names;
use hive_model::Text;
use std::alloc::Global;
use text_model::GraphRefusal;

/// The graph of these raw handles and of what these algorithms take and produce.
///
/// # Errors
///
/// The first refusal that applies, in the order of [`GraphRefusal`] (docs/FORMATS.md, "Refusals of options").
pub fn build(alloc: Global, raws: &[Text], needs: &[Need]) -> Result<Graph, GraphRefusal>
    requires few_handles { length (handles_of raws.now needs.now) ≤ MOST_HANDLES }
    requires few_needs { length needs.now ≤ MOST_ALGORITHMS }
    ensures meaning { Gives refusals.NoMemory result (graph_of raws.now needs.now) }
    // Where there is a graph, no algorithm takes from itself in any number of steps.
    ensures acyclic { OnOk result (NeverWaits needs.now) }
{
    let names = read_handles(alloc, raws, needs)?;
    let inputs = read_inputs(alloc, &names, needs)?;
    build_graph(alloc, raws, needs, names, inputs.as_slice())
}

// The graph of handles whose names are known, by the handles that each algorithm takes.
fn build_graph(
    alloc: Global,
    raws: &[Text],
    needs: &[Need],
    names: Names,
    inputs: &[Vec<u16>],
) -> Result<Graph, GraphRefusal>
    requires few_handles { length (handles_of raws.now needs.now) ≤ MOST_HANDLES }
    requires few_needs { length needs.now ≤ MOST_ALGORITHMS }
    requires once { two_producers (handles_of raws.now needs.now) ≡ None }
    requires names { names ≡ handles_of raws.now needs.now }
    requires inputs { items inputs.now ≡ taken_by_each (handles_of raws.now needs.now) needs.now }
    ensures meaning { Gives refusals.NoMemory result (graph_unless_cyclic raws.now needs.now) }
    ensures acyclic { OnOk result (NeverWaits needs.now) }
{
    let producers = list_producers(alloc, raws, needs)?;
    refuse_cycle(alloc, raws, needs, inputs, producers.as_slice())?;
    let consumers = list_consumers(alloc, names.len(), inputs)?;
    Ok(Graph {
        names,
        producers,
        consumers,
    })
}
