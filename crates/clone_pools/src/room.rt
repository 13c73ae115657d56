//! How much room an execution needs.
ghost use Rattle.std.specs.Prelude.{◌≡◌, [], IfOk, length, max};
ghost use Rattle.clone_pools.specs.Room.{HasRoom, filter_nodes, most_nodes, room_of};

use hive_model::{Algorithm, Expr, Many, Output, Scratch};
use std::alloc::{AllocError, Global};

/// The room that a scratch needs for the executions of an algorithm.
#[derive(Clone, Copy, Debug)]
pub(crate) struct Room {
    /// The number of inputs.
    pub(crate) inputs: usize,
    /// The number of nodes of the longest expression.
    pub(crate) operands: usize,
}

impl Room {
    /// What that algorithm needs.
    pub(crate) fn of(algorithm: &Algorithm) -> Room
        ensures { result ≡ room_of algorithm.now }
    {
        let outputs = most_in_outputs(algorithm.outputs());
        let filter = count_in_filter(&algorithm.filter);
        Room {
            inputs: algorithm.inputs().len(),
            operands: outputs.max(filter),
        }
    }

    /// A scratch with that room. The only error is that memory ran out.
    pub(crate) fn scratch(&self, alloc: Global) -> Result<Scratch, AllocError>
        ensures room { IfOk result (HasRoom self.now) }
        ensures inputs { IfOk result (λ it. it.inputs ≡ []) }
    {
        let stack = Many::with_room(alloc, self.operands)?;
        let inputs = Many::with_room(alloc, self.inputs)?;
        Ok(Scratch::from_parts(stack, inputs))
    }
}

// The most nodes that an output's expression has.
fn most_in_outputs(outputs: &[Output]) -> usize
    ensures { result ≡ most_nodes outputs.now }
{
    let mut most = 0;
    for output in outputs {
        most = output.value.nodes().len().max(most);
    }
    most
}

fn count_in_filter(filter: &Option<Expr>) -> usize
    ensures { result ≡ filter_nodes filter.now }
{
    match filter {
        Some(filter) => filter.nodes().len(),
        None => 0,
    }
}
