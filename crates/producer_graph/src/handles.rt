//! The names of all handles.
ghost use Rattle.std.specs.Prelude.{◌≡◌, ◌≢◌, ◌++◌, ℕ, List, IfOk, IfErr, OnOk, Some, None};
ghost use Rattle.text_model.specs.Producers.{handles_of, two_producers};
ghost use Rattle.text_model.specs.declared.graph_refusal.GraphRefusal.TheVariants as refusals;
ghost use Rattle.producer_graph.specs.Parts.{twice_behind};

use crate::need::Need;
use graph_parts::Names;
use hive_model::{Duplicate, Text};
use std::alloc::Global;
use text_model::GraphRefusal;

// The names of the handles in their order, or the first that has two producers.
#[tactic(auto, unfolding(text_model::specs::Names::repeated_behind))]
pub(crate) fn read_handles(
    alloc: Global,
    raws: &[Text],
    needs: &[Need],
) -> Result<Names, GraphRefusal>
    ensures ok { IfOk result (λ it. (two_producers (handles_of raws.now needs.now) ≡ None)
        × (it ≡ handles_of raws.now needs.now)) }
    ensures err { IfErr result (λ e. e ≢ refusals.NoMemory
        → two_producers (handles_of raws.now needs.now) ≡ Some e) }
{
    let mut names = Names::new(alloc);
    add_handles(alloc, &mut names, raws)?;
    for need in needs {
        add_handles(alloc, &mut names, need.outputs())?;
    }
    Ok(names)
}

// Adds handles behind the others, up to the first whose name is there.
#[tactic(auto, unfolding(text_model::specs::Names::repeated_behind))]
fn add_handles(alloc: Global, names: &mut Names, handles: &[Text]) -> Result<(), GraphRefusal>
    ensures added { OnOk result (names.new ≡ names.old ++ handles.now) }
    ensures ok { OnOk result ((later : List (List ℕ)) → twice_behind names.old (handles.now ++ later)
        ≡ twice_behind (names.old ++ handles.now) later) }
    ensures err { IfErr result (λ e. e ≢ refusals.NoMemory
        → (later : List (List ℕ)) → twice_behind names.old (handles.now ++ later) ≡ Some e) }
{
    for handle in handles {
        if !names.add(alloc, handle.as_str())? {
            return Err(GraphRefusal::TwoProducers {
                handle: handle.copy(alloc)?,
            });
        }
    }
    Ok(())
}
