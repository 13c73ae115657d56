//! The value of an expression.
ghost use Rattle.std.specs.Prelude.{◌≡◌, ◌<◌, IfOk, IsSome, Ok, Some, length, map, nat_eq, option_copied, slice_get};
ghost use Rattle.std.specs.Map.{lookup};
ghost use Rattle.std.specs.Option.{option_map_or};
ghost use Rattle.hive_model.specs.Call.{unfit};
ghost use Rattle.hive_model.specs.Number.{Borrows};
ghost use Rattle.hive_model.specs.Tree.{tree_of, tree_within};
ghost use Rattle.hive_model.specs.Value.{and_then, value_of};
ghost use Rattle.serial_meaning.specs.Evaluation.{bound, made_of_one, made_of_two, said, value_within};

use crate::form::{Form, One, Two, form_of};
use hive_model::{Duplicate, Fault, Node, Product};
use std::alloc::{AllocError, Global};
use std::sync::Arc;

// A data handle and the product that it holds.
#[derive(Drop)]
pub(crate) struct Held {
    pub(crate) handle: usize,
    pub(crate) product: Arc<Product>,
}

// What a node comes to: a product that a handle holds, or what was made of operands.
#[derive(Drop)]
enum Found<'a> {
    Held(&'a Product),
    Made(Result<Product, Fault>),
}

// The product that a handle holds; the first one that is bound to it counts.
fn product_of(held: &[Held], handle: u16) -> Option<&Product>
    ensures { option_copied result ≡ lookup (nat_eq handle) (map bound held.now) }
{
    for it in held {
        if usize::from(handle) == it.handle {
            return Some(&*it.product);
        }
    }
    None
}

// A handle's product. No expression of a valid job names a handle that isn't bound.
#[tactic(auto, unfolding(hive_model::specs::Call::unfit))]
fn found_in(held: &[Held], handle: u16) -> Found<'_>
    ensures { said result
        ≡ option_map_or Ok (lookup (nat_eq handle) (map bound held.now)) unfit }
{
    match product_of(held, handle) {
        Some(product) => Found::Held(product),
        None => Found::Made(Err(Fault::Empty)),
    }
}

fn product<'b>(found: &'b Found<'_>) -> Result<&'b Product, Fault>
    ensures { Borrows result (said found.now) }
{
    match found {
        Found::Held(product) => Ok(product),
        Found::Made(Ok(product)) => Ok(product),
        Found::Made(Err(fault)) => Err(*fault),
    }
}

fn apply_one(step: One, operand: &Found<'_>) -> Result<Product, Fault>
    ensures { result ≡ and_then (said operand.now) (made_of_one step) }
{
    let operand = product(operand)?;
    match step {
        One::Negate => operand.negated(),
        One::Call(function) => function.apply(operand),
    }
}

fn apply_both(
    alloc: Global,
    step: Two,
    left: &Product,
    right: &Product,
) -> Result<Result<Product, Fault>, AllocError>
    ensures { IfOk result (λ it. it ≡ made_of_two step left.now right.now) }
{
    match step {
        Two::Operator(operator) => Ok(operator.apply(left, right)),
        Two::Call(function) => Ok(function.apply_both(alloc, left, right)?),
    }
}

// The left operand's fault comes before the right one's.
fn apply_two(
    alloc: Global,
    step: Two,
    left: &Found<'_>,
    right: &Found<'_>,
) -> Result<Result<Product, Fault>, AllocError>
    ensures { IfOk result (λ it.
        it ≡ and_then (said left.now) (λ p. and_then (said right.now) (made_of_two step p))) }
{
    match (product(left), product(right)) {
        (Err(fault), _) => Ok(Err(fault)),
        (Ok(_), Err(fault)) => Ok(Err(fault)),
        (Ok(left), Ok(right)) => Ok(apply_both(alloc, step, left, right)?),
    }
}

fn node_at(nodes: &[Node], place: usize) -> Node
    requires { place < length nodes.now }
    ensures { slice_get nodes.now place ≡ Some result }
{
    nodes[place]
}

// The value of the tree under the node at a place, which is at most `depth` high.
fn value<'a>(
    alloc: Global,
    held: &'a [Held],
    nodes: &[Node],
    depth: usize,
    place: usize,
) -> Result<Found<'a>, AllocError>
    requires { IsSome (tree_within depth nodes.now place) }
    ensures { IfOk result (λ it.
        said it ≡ value_within (map bound held.now) depth nodes.now place) }
{
    let below = depth - 1;
    match form_of(node_at(nodes, place)) {
        Form::Number(number) => Ok(Found::Made(Ok(Product::Num(number)))),
        Form::Handle(handle) => Ok(found_in(held, handle)),
        Form::One(step, only) => {
            let operand = value(alloc, held, nodes, below, usize::from(only))?;
            Ok(Found::Made(apply_one(step, &operand)))
        }
        Form::Two(step, first, second) => {
            let left = value(alloc, held, nodes, below, usize::from(first))?;
            let right = value(alloc, held, nodes, below, usize::from(second))?;
            Ok(Found::Made(apply_two(alloc, step, &left, &right)?))
        }
    }
}

// The value of an expression, whose nodes are those of a tree.
pub(crate) fn evaluate(
    alloc: Global,
    held: &[Held],
    nodes: &[Node],
) -> Result<Result<Product, Fault>, AllocError>
    requires { IsSome (tree_of nodes.now) }
    ensures { IfOk result (λ it. it ≡ value_of (map bound held.now) nodes.now) }
{
    let last = nodes.len() - 1;
    match value(alloc, held, nodes, nodes.len(), last)? {
        Found::Held(product) => Ok(Ok(product.copy(alloc)?)),
        Found::Made(worth) => Ok(worth),
    }
}
