//! The inputs of algorithms, by the numbers of their handles.
ghost use Rattle.std.specs.Prelude.{◌≡◌, ◌≢◌, ◌<◌, ◌≤◌, length, IfOk, IfErr, Some, None, All};
ghost use Rattle.hive_model.specs.declared.limits.TheConstants.{MOST_HANDLES};
ghost use Rattle.text_model.specs.Producers.{no_producer};
ghost use Rattle.text_model.specs.declared.graph_refusal.GraphRefusal.TheVariants as refusals;
ghost use Rattle.producer_graph.specs.Lists.{items};
ghost use Rattle.producer_graph.specs.Parts.{taken_by, taken_by_each, unknown_in};

use crate::need::Need;
use graph_parts::Names;
use hive_model::Duplicate;
use std::alloc::Global;
use text_model::GraphRefusal;

// The handles that each algorithm takes, or the first that has no producer.
pub(crate) fn read_inputs(
    alloc: Global,
    handles: &Names,
    needs: &[Need],
) -> Result<Vec<Vec<u16>>, GraphRefusal>
    requires { length handles.now ≤ MOST_HANDLES }
    ensures ok { IfOk result (λ it. (no_producer handles.now needs.now ≡ None)
        × (items it.items ≡ taken_by_each handles.now needs.now)) }
    ensures err { IfErr result (λ e. e ≢ refusals.NoMemory → no_producer handles.now needs.now ≡ Some e) }
{
    let mut each = Vec::with_capacity(alloc, needs.len())?;
    for need in needs {
        let inputs = read_need(alloc, handles, need)?;
        each.push(inputs)?;
    }
    Ok(each)
}

fn read_need(alloc: Global, handles: &Names, need: &Need) -> Result<Vec<u16>, GraphRefusal>
    requires { length handles.now ≤ MOST_HANDLES }
    ensures ok { IfOk result (λ it. (unknown_in handles.now need.now ≡ None) × (it.items ≡ taken_by handles.now need.now)) }
    ensures err { IfErr result (λ e. e ≢ refusals.NoMemory → unknown_in handles.now need.now ≡ Some e) }
{
    let mut inputs = Vec::with_capacity(alloc, need.inputs().len())?;
    for name in need.inputs() {
        match handles.number_of(name.as_str()) {
            Some(number) => inputs.push(number as u16)?,
            None => {
                return Err(GraphRefusal::NoProducer {
                    algorithm: need.name.copy(alloc)?,
                    handle: name.copy(alloc)?,
                });
            }
        }
    }
    Ok(inputs)
}
