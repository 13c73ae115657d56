//! An expression on the stack.
ghost use Rattle.std.specs.Prelude.{◌≡◌, ◌≤◌, [], IfOk, length};
ghost use Rattle.hive_model.specs.Runnable.{AreInOrder};
ghost use Rattle.hive_model.specs.Value.{value_of};
ghost use Rattle.expr_code.specs.Frame.{products, seen_by};
ghost use Rattle.expr_code.specs.Stack.{IsSound, room, worth_in};

use crate::frame::Frame;
use crate::node::run_node;
use hive_model::{Fault, Many, Node, Operand};
use std::alloc::{AllocError, Global};

// Runs the nodes in order, and takes the one operand that they leave.
fn run_nodes(
    alloc: Global,
    frame: &Frame<'_>,
    nodes: &[Node],
    stack: &mut Many<Operand>,
) -> Result<Result<Operand, Fault>, AllocError>
    requires order { AreInOrder nodes.now }
    requires empty { stack.old.items ≡ [] }
    requires room { length nodes.now ≤ room stack.old }
    ensures value { IfOk result (λ it.
        worth_in (products frame.now) it ≡ value_of (seen_by frame.now) nodes.now) }
    ensures sound { IfOk result (IsSound (products frame.now)) }
    ensures room { room stack.old ≤ room stack.new }
{
    for node in nodes {
        if let Err(fault) = run_node(alloc, frame, *node, stack)? {
            return Ok(Err(fault));
        }
    }
    match stack.pop() {
        Some(operand) => Ok(Ok(operand)),
        None => unreachable!(),
    }
}

// The value of an expression, with the stack empty before and after. The only error is that memory
// ran out.
pub(crate) fn evaluate(
    alloc: Global,
    frame: &Frame<'_>,
    nodes: &[Node],
    stack: &mut Many<Operand>,
) -> Result<Result<Operand, Fault>, AllocError>
    requires order { AreInOrder nodes.now }
    requires empty { stack.old.items ≡ [] }
    requires room { length nodes.now ≤ room stack.old }
    ensures value { IfOk result (λ it.
        worth_in (products frame.now) it ≡ value_of (seen_by frame.now) nodes.now) }
    ensures sound { IfOk result (IsSound (products frame.now)) }
    ensures empty { stack.new.items ≡ [] }
    ensures room { room stack.old ≤ room stack.new }
{
    let worth = run_nodes(alloc, frame, nodes, stack);
    // where a fault came, or memory ran out, operands are left behind
    stack.clear();
    worth
}
