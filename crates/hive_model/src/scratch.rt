//! The working room of an execution.
ghost use Rattle.std.specs.Prelude.{◌≡◌, ◌+◌, ◌≤◌, [], IfOk, OnOk, OnErr, MatchOption, length, map};
ghost use Rattle.std.specs.Arc.{arc_value};
ghost use Rattle.std.specs.List.{AllByRecursion};
ghost use Rattle.hive_model.specs.Enabled.{inputs_in};
ghost use Rattle.hive_model.specs.Scratch.{IsMadeFor, Keeps};

use crate::{Algorithm, Expr, Many, Output, Product, Store};
use std::alloc::{AllocError, Global};
use std::marker::Model;
use std::sync::Arc;

/// What stands on the stack of an execution.
#[derive(Debug, Drop)]
pub enum Operand {
    /// What an expression has made so far.
    Made(Product),
    /// The product with that index, from 0, among the inputs and then the outputs above.
    Held(usize),
}

/// The working room of one instance of an algorithm: a stack for its expressions, and its inputs
/// (docs/PROCESSING.md, "Execution").
///
/// Contracts see the inputs as products, and how many inputs and operands there is room for. Between
/// executions the stack is empty.
#[derive(Debug, Drop)]
pub struct Scratch {
    stack: Many<Operand>,
    inputs: Many<Arc<Product>>,
}

impl Model for Scratch {
    ghost use Rattle.std.specs.Prelude.{◌≡◌, ◌+◌, [], length, map};
    ghost use Rattle.std.specs.Arc.{arc_value};
    ghost use Rattle.hive_model.specs.Scratch.{Scratch as Shown};

    ghost Value = { Shown };

    ghost view = { λ it. record { inputs = map arc_value it.inputs.items; input_room = length it.inputs.items + it.inputs.spare; stack_room = length it.stack.items + it.stack.spare } };

    ghost invariant = { λ it. it.stack.items ≡ [] };
}

impl Scratch {
    /// Room for the inputs and the expressions of an algorithm, with no inputs yet. The only error is
    /// that memory ran out.
    pub fn new(alloc: Global, algorithm: &Algorithm) -> Result<Scratch, AllocError>
        ensures made_for { IfOk result (IsMadeFor algorithm.now) }
        ensures inputs { IfOk result (λ it. it.inputs ≡ []) }
    {
        let most = most_nodes(algorithm.outputs()).max(filter_nodes(&algorithm.filter));
        let stack = Many::with_room(alloc, most)?;
        let inputs = Many::with_room(alloc, algorithm.inputs().len())?;
        Ok(Scratch { stack, inputs })
    }

    /// Shares what a store holds for these handles, in their order, and lets the inputs before go. The
    /// only error is that memory ran out: there are then no inputs.
    pub fn load(&mut self, handles: &[u16], store: &Store) -> Result<(), AllocError>
        ensures ok { OnOk result (self.new.inputs ≡ inputs_in store.now handles.now) }
        ensures err { OnErr result (self.new.inputs ≡ []) }
        ensures room { Keeps self.old self.new }
    {
        self.inputs.clear();
        let loaded = share_into(&mut self.inputs, handles, store);
        if loaded.is_err() {
            self.inputs.clear();
        }
        loaded
    }

    /// Lets the inputs go, and keeps the room. It takes no memory.
    pub fn unload(&mut self)
        ensures { self.new ≡ record self.old { inputs = [] } }
    {
        self.inputs.clear();
    }

    /// The inputs.
    pub fn inputs(&self) -> &[Arc<Product>]
        ensures { map arc_value result.now ≡ self.now.inputs }
    {
        self.inputs.as_slice()
    }

    /// The stack, which is empty, and the inputs. It takes no memory.
    pub fn into_parts(self) -> (Many<Operand>, Many<Arc<Product>>)
        ensures empty { result.0.items ≡ [] }
        ensures stack_room { result.0.spare ≡ self.stack_room }
        ensures inputs { map arc_value result.1.items ≡ self.inputs }
        ensures input_room { length result.1.items + result.1.spare ≡ self.input_room }
    {
        let Scratch { stack, inputs } = self;
        (stack, inputs)
    }

    /// A scratch of an empty stack and these inputs. It takes no memory.
    pub fn from_parts(stack: Many<Operand>, inputs: Many<Arc<Product>>) -> Scratch
        requires { stack.items ≡ [] }
        ensures inputs { result.inputs ≡ map arc_value inputs.items }
        ensures input_room { result.input_room ≡ length inputs.items + inputs.spare }
        ensures stack_room { result.stack_room ≡ stack.spare }
    {
        Scratch { stack, inputs }
    }
}

// Appends what a store holds for these handles.
fn share_into(
    inputs: &mut Many<Arc<Product>>,
    handles: &[u16],
    store: &Store,
) -> Result<(), AllocError>
    requires { inputs.old.items ≡ [] }
    ensures items { OnOk result (map arc_value inputs.new.items ≡ inputs_in store.now handles.now) }
    ensures room { length inputs.old.items + inputs.old.spare ≤ length inputs.new.items + inputs.new.spare }
{
    for handle in handles {
        if let Some(product) = store.share(*handle)? {
            inputs.push(product).map_err(|(_, error)| error)?;
        }
    }
    Ok(())
}

// The most nodes that an output's expression has.
fn most_nodes(outputs: &[Output]) -> usize
    ensures { AllByRecursion (λ o. length o.value ≤ result) outputs.now }
{
    let mut most = 0;
    for output in outputs {
        most = output.value.nodes().len().max(most);
    }
    most
}

fn filter_nodes(filter: &Option<Expr>) -> usize
    ensures { MatchOption filter.now (Unit {0}) (λ x. length x ≤ result) }
{
    match filter {
        Some(filter) => filter.nodes().len(),
        None => 0,
    }
}
