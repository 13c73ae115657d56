//! One node on the stack.
ghost use Rattle.std.specs.Prelude.{◌≡◌, ◌+◌, ◌<◌, ◌≤◌, List, IfOk, length, Ok};
ghost use Rattle.std.specs.Option.{option_map_or};
ghost use Rattle.hive_model.specs.Call.{call_one, call_two, unfit};
ghost use Rattle.hive_model.specs.Value.{and_then, negated, operated};
ghost use Rattle.expr_code.specs.Frame.{product_named, products, seen_by};
ghost use Rattle.expr_code.specs.Stack.{Follows, IsSound, TakesOff, after_node, operand_in, over_one, over_two, room, stack_of, worth_in};

use crate::frame::{Frame, index_of, product_of};
use hive_model::{Binary, Fault, Function, Many, Node, Operand, Product};
use std::alloc::{AllocError, Global};

// The sign of the last operand turned.
#[tactic(auto, unfolding(hive_model::specs::Call::unfit))]
fn negate(frame: &Frame<'_>, stack: &mut Many<Operand>) -> Result<Product, Fault>
    ensures value { TakesOff frame.now (over_one negated) stack.old stack.new result }
    ensures fewer { length stack.new.items ≤ length stack.old.items }
    ensures room { room stack.old ≤ room stack.new }
{
    let Some(operand) = stack.pop() else {
        return Err(Fault::Empty);
    };
    product_of(frame, &operand)?.negated()
}

fn apply(
    frame: &Frame<'_>,
    operator: Binary,
    left: &Operand,
    right: &Operand,
) -> Result<Product, Fault>
    ensures { result ≡ and_then (operand_in (products frame.now) left.now)
        (λ p. and_then (operand_in (products frame.now) right.now) (operated operator p)) }
{
    let left = product_of(frame, left)?;
    let right = product_of(frame, right)?;
    operator.apply(left, right)
}

// An operator over the last two operands.
#[tactic(auto, unfolding(hive_model::specs::Call::unfit))]
fn operate(frame: &Frame<'_>, operator: Binary, stack: &mut Many<Operand>) -> Result<Product, Fault>
    ensures value { TakesOff frame.now (over_two (operated operator)) stack.old stack.new result }
    ensures fewer { length stack.new.items ≤ length stack.old.items }
    ensures room { room stack.old ≤ room stack.new }
{
    let Some(right) = stack.pop() else {
        return Err(Fault::Empty);
    };
    let Some(left) = stack.pop() else {
        return Err(Fault::Empty);
    };
    apply(frame, operator, &left, &right)
}

// A function of the last operand.
#[tactic(auto, unfolding(hive_model::specs::Call::unfit))]
fn call(frame: &Frame<'_>, function: Function, stack: &mut Many<Operand>) -> Result<Product, Fault>
    ensures value { TakesOff frame.now (over_one (call_one function)) stack.old stack.new result }
    ensures fewer { length stack.new.items ≤ length stack.old.items }
    ensures room { room stack.old ≤ room stack.new }
{
    let Some(operand) = stack.pop() else {
        return Err(Fault::Empty);
    };
    function.apply(product_of(frame, &operand)?)
}

fn call_over(
    alloc: Global,
    frame: &Frame<'_>,
    function: Function,
    left: &Operand,
    right: &Operand,
) -> Result<Result<Product, Fault>, AllocError>
    ensures { IfOk result (λ it. it ≡ and_then (operand_in (products frame.now) left.now)
        (λ p. and_then (operand_in (products frame.now) right.now) (call_two function p))) }
{
    match product_of(frame, left) {
        Err(fault) => Ok(Err(fault)),
        Ok(left) => match product_of(frame, right) {
            Err(fault) => Ok(Err(fault)),
            Ok(right) => Ok(function.apply_both(alloc, left, right)?),
        },
    }
}

// A function of the last two operands. The only error is that memory ran out.
#[tactic(auto, unfolding(hive_model::specs::Call::unfit))]
fn call_both(
    alloc: Global,
    frame: &Frame<'_>,
    function: Function,
    stack: &mut Many<Operand>,
) -> Result<Result<Product, Fault>, AllocError>
    ensures value { IfOk result
        (TakesOff frame.now (over_two (call_two function)) stack.old stack.new) }
    ensures fewer { length stack.new.items ≤ length stack.old.items }
    ensures room { room stack.old ≤ room stack.new }
{
    let Some(right) = stack.pop() else {
        return Ok(Err(Fault::Empty));
    };
    let Some(left) = stack.pop() else {
        return Ok(Err(Fault::Empty));
    };
    Ok(call_over(alloc, frame, function, &left, &right)?)
}

#[tactic(auto, unfolding(hive_model::specs::Call::unfit))]
fn hold(frame: &Frame<'_>, handle: u16) -> Result<Operand, Fault>
    ensures value { worth_in (products frame.now) result
        ≡ option_map_or Ok (product_named handle (seen_by frame.now)) unfit }
    ensures sound { IsSound (products frame.now) result }
{
    match index_of(frame, handle) {
        Some(index) => Ok(Operand::Held(index)),
        None => Err(Fault::Empty),
    }
}

fn made(worth: Result<Product, Fault>) -> Result<Operand, Fault>
    ensures value { (products : List Product) → worth_in products result ≡ worth }
    ensures sound { (products : List Product) → IsSound products result }
{
    match worth {
        Ok(product) => Ok(Operand::Made(product)),
        Err(fault) => Err(fault),
    }
}

// What the node comes to, with its operands taken off the stack. The only error is that memory ran
// out.
#[tactic(auto, unfolding(crate::specs::Stack::after_node))]
fn result_of(
    alloc: Global,
    frame: &Frame<'_>,
    node: Node,
    stack: &mut Many<Operand>,
) -> Result<Result<Operand, Fault>, AllocError>
    ensures value { IfOk result (λ it. TakesOff frame.now (after_node (seen_by frame.now) node)
        stack.old stack.new (worth_in (products frame.now) it)) }
    ensures sound { IfOk result (IsSound (products frame.now)) }
    ensures fewer { length stack.new.items ≤ length stack.old.items }
    ensures room { room stack.old ≤ room stack.new }
{
    match node {
        Node::Number(number) => Ok(Ok(Operand::Made(Product::Num(number)))),
        Node::Handle(handle) => Ok(hold(frame, handle)),
        Node::Negate(_) => Ok(made(negate(frame, stack))),
        Node::Binary(operator, _, _) => Ok(made(operate(frame, operator, stack))),
        Node::Call(function, _, None) => Ok(made(call(frame, function, stack))),
        Node::Call(function, _, Some(_)) => Ok(made(call_both(alloc, frame, function, stack)?)),
    }
}

// Runs a node: takes its operands off the stack and puts on it what it comes to, unless that is a
// fault. The only error is that memory ran out.
pub(crate) fn run_node(
    alloc: Global,
    frame: &Frame<'_>,
    node: Node,
    stack: &mut Many<Operand>,
) -> Result<Result<(), Fault>, AllocError>
    requires { length stack.old.items < room stack.old }
    ensures value { IfOk result (Follows
        (after_node (seen_by frame.now) node (stack_of frame.now stack.old))
        (stack_of frame.now stack.new)) }
    ensures one_more { length stack.new.items ≤ length stack.old.items + 1 }
    ensures room { room stack.old ≤ room stack.new }
{
    match result_of(alloc, frame, node, stack)? {
        Err(fault) => Ok(Err(fault)),
        Ok(operand) => {
            // there is room for it, so that a number never takes memory
            match stack.push(operand) {
                Ok(()) => Ok(Ok(())),
                Err(_) => unreachable!(),
            }
        }
    }
}
