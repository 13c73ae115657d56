//! The execution of an algorithm.
ghost use Rattle.std.specs.Prelude.{◌≡◌, ◌≤◌, [], ◌∷◌, ◌++◌, IfOk, OnOk, map};
ghost use Rattle.std.specs.Arc.{arc_value};
ghost use Rattle.hive_model.specs.Execution.{execution, filtered};
ghost use Rattle.hive_model.specs.Runnable.{CanPerform};
ghost use Rattle.expr_code.specs.Frame.{products};
ghost use Rattle.expr_code.specs.Stack.{HasRoomFor, room, verdict, worth_in};

use crate::evaluation::evaluate;
use crate::frame::{Frame, product_of, share};
use hive_model::{Algorithm, Execution, Fault, Many, Operand, Outcome, Place, Product};
use std::alloc::{AllocError, Global};
use std::sync::Arc;

// What the filter's value makes of the event, or its fault.
fn verdict(frame: &Frame<'_>, worth: &Result<Operand, Fault>) -> Result<Outcome, Fault>
    ensures { verdict (worth_in (products frame.now) worth.now) ≡ result }
{
    let operand = match worth {
        Ok(operand) => operand,
        Err(fault) => return Err(*fault),
    };
    match product_of(frame, operand)? {
        Product::Num(0) => Ok(Outcome::Rejected),
        Product::Num(_) => Ok(Outcome::Accepted),
        Product::List(_) => Ok(Outcome::Accepted),
    }
}

// Evaluates the filter, where there is one, over the inputs and all outputs.
fn filter(
    alloc: Global,
    body: &Algorithm,
    inputs: &[Arc<Product>],
    outputs: Many<Arc<Product>>,
    stack: &mut Many<Operand>,
) -> Result<Execution, AllocError>
    requires performs { CanPerform body.now }
    requires empty { stack.old.items ≡ [] }
    requires room { HasRoomFor body.now stack.old }
    ensures value { IfOk result (λ it.
        it ≡ filtered body.now (map arc_value inputs.now) (map arc_value outputs.items)) }
    ensures empty { stack.new.items ≡ [] }
    ensures room { room stack.old ≤ room stack.new }
{
    let Some(filter) = &body.filter else {
        return Ok(Execution {
            outcome: Outcome::Accepted,
            outputs,
        });
    };
    let frame = Frame {
        body,
        inputs,
        outputs: outputs.as_slice(),
    };
    let worth = evaluate(alloc, &frame, filter.nodes(), stack)?;
    match verdict(&frame, &worth) {
        Ok(outcome) => Ok(Execution { outcome, outputs }),
        Err(fault) => Ok(Execution::failed(alloc, Place::Filter, fault)),
    }
}

// Takes a further output among the outputs.
fn keep(outputs: &mut Many<Arc<Product>>, output: Arc<Product>) -> Result<(), AllocError>
    ensures { OnOk result (map arc_value outputs.new.items
        ≡ map arc_value outputs.old.items ++ arc_value output ∷ []) }
{
    match outputs.push(output) {
        Ok(()) => Ok(()),
        Err((_, error)) => Err(error),
    }
}

// The execution of an algorithm over its inputs, with the stack empty before and after. The only
// error is that memory ran out.
pub(crate) fn execute(
    alloc: Global,
    body: &Algorithm,
    inputs: &[Arc<Product>],
    stack: &mut Many<Operand>,
) -> Result<Execution, AllocError>
    requires performs { CanPerform body.now }
    requires empty { stack.old.items ≡ [] }
    requires room { HasRoomFor body.now stack.old }
    ensures value { IfOk result (λ it. it ≡ execution body.now (map arc_value inputs.now)) }
    ensures empty { stack.new.items ≡ [] }
    ensures room { room stack.old ≤ room stack.new }
{
    let mut outputs = Many::with_room(alloc, body.outputs().len())?;
    for (number, output) in body.outputs().iter().enumerate() {
        let frame = Frame {
            body,
            inputs,
            outputs: outputs.as_slice(),
        };
        match evaluate(alloc, &frame, output.value.nodes(), stack)? {
            Ok(operand) => {
                let product = share(alloc, &frame, operand)?;
                keep(&mut outputs, product)?;
            }
            Err(fault) => {
                let place = Place::Output(number as u16);
                return Ok(Execution::failed(alloc, place, fault));
            }
        }
    }
    Ok(filter(alloc, body, inputs, outputs, stack)?)
}
