//! What an expression of an algorithm sees.
ghost use Rattle.std.specs.Prelude.{◌≡◌, Ok, IfOk, IsOk, map, nat_eq, nat_lt, ◌&&◌, option_map, slice_get};
ghost use Rattle.std.specs.Arc.{arc_value};
ghost use Rattle.std.specs.List.{enumerate_from};
ghost use Rattle.expr_code.specs.Frame.{IsIndexOf, product_named, products, seen_by};
ghost use Rattle.expr_code.specs.Stack.{operand_in};
ghost use Rattle.hive_model.specs.Number.{Borrows};

use hive_model::{Algorithm, Fault, Operand, Product};
use std::alloc::{AllocError, Global};
use std::sync::Arc;

// An algorithm, the products of its inputs, and those of its outputs so far.
#[derive(Clone, Copy)]
pub(crate) struct Frame<'a> {
    pub(crate) body: &'a Algorithm,
    pub(crate) inputs: &'a [Arc<Product>],
    pub(crate) outputs: &'a [Arc<Product>],
}

// Whether the input with that index is the handle's, and is there.
fn is_bound(handle: u16, input: u16, index: usize, count: usize) -> bool
    ensures { result ≡ (nat_eq handle input && nat_lt index count) }
{
    handle == input && index < count
}

// The index of the output that the handle is, if it is there.
fn output_index(first: u16, handle: u16, outputs: &[Arc<Product>]) -> Option<usize>
    ensures { IsIndexOf result (map arc_value outputs.now)
        (product_named handle (enumerate_from first (map arc_value outputs.now))) }
{
    if handle < first {
        return None;
    }
    let index = usize::from(handle - first);
    if index < outputs.len() {
        Some(index)
    } else {
        None
    }
}

// The index of the product that a handle names, among the inputs and then the outputs so far.
pub(crate) fn index_of(frame: &Frame<'_>, handle: u16) -> Option<usize>
    ensures { IsIndexOf result (products frame.now) (product_named handle (seen_by frame.now)) }
{
    let body = frame.body;
    for (index, input) in body.inputs().iter().enumerate() {
        if is_bound(handle, *input, index, frame.inputs.len()) {
            return Some(index);
        }
    }
    match output_index(body.first_output, handle, frame.outputs) {
        Some(index) => Some(frame.inputs.len() + index),
        None => None,
    }
}

// The product with that index.
fn held_at<'a>(frame: &'a Frame<'_>, index: usize) -> Option<&'a Arc<Product>>
    ensures { option_map (λ it. arc_value it.now) result ≡ slice_get (products frame.now) index }
{
    if index < frame.inputs.len() {
        frame.inputs.get(index)
    } else {
        frame.outputs.get(index - frame.inputs.len())
    }
}

// The product that an operand is. None that stands on the stack is at fault.
#[tactic(auto, unfolding(hive_model::specs::Call::unfit))]
pub(crate) fn product_of<'a>(
    frame: &'a Frame<'_>,
    operand: &'a Operand,
) -> Result<&'a Product, Fault>
    ensures { Borrows result (operand_in (products frame.now) operand.now) }
{
    match operand {
        Operand::Made(product) => Ok(product),
        Operand::Held(index) => match held_at(frame, *index) {
            Some(product) => Ok(&**product),
            None => Err(Fault::Empty),
        },
    }
}

// One owner more of what is held, or the first owner of what was made. The only error is that
// memory ran out.
#[tactic(auto, unfolding(hive_model::specs::Call::unfit))]
pub(crate) fn share(
    alloc: Global,
    frame: &Frame<'_>,
    operand: Operand,
) -> Result<Arc<Product>, AllocError>
    requires { IsOk (operand_in (products frame.now) operand) }
    ensures { IfOk result (λ it. operand_in (products frame.now) operand ≡ Ok (arc_value it)) }
{
    match operand {
        Operand::Made(product) => Ok(Arc::new(alloc, product)?),
        Operand::Held(index) => match held_at(frame, index) {
            Some(product) => Ok(Arc::try_clone(product)?),
            None => unreachable!(),
        },
    }
}
