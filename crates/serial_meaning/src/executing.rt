//! The execution of an algorithm.
ghost use Rattle.std.specs.Prelude.{◌≡◌, ◌++◌, ◌∷◌, [], IfOk, OnOk, List, map};
ghost use Rattle.std.specs.Arc.{arc_value};
ghost use Rattle.std.specs.List.{zip};
ghost use Rattle.hive_model.specs.Execution.{execution, filtered, passed, seen};
ghost use Rattle.hive_model.specs.Runnable.{CanExecute};
ghost use Rattle.serial_meaning.specs.Evaluation.{bound};

use crate::value::{Held, evaluate};
use hive_model::{Algorithm, Execution, Many, Outcome, Place, Product};
use std::alloc::{AllocError, Global};
use std::sync::Arc;

// Each input's handle with its product.
fn bind(alloc: Global, handles: &[u16], inputs: &[Arc<Product>]) -> Result<Vec<Held>, AllocError>
    ensures { IfOk result (λ it. map bound it.items ≡ zip handles.now (map arc_value inputs.now)) }
{
    let mut held = Vec::new(alloc);
    for (number, handle) in handles.iter().enumerate() {
        let Some(input) = inputs.get(number) else {
            return Ok(held);
        };
        let product = Arc::try_clone(input)?;
        held.push(Held {
            handle: usize::from(*handle),
            product,
        })?;
    }
    Ok(held)
}

// Takes a further output among the outputs, and binds its handle.
fn keep(
    alloc: Global,
    held: &mut Vec<Held>,
    outputs: &mut Many<Arc<Product>>,
    handle: usize,
    output: Product,
) -> Result<(), AllocError>
    ensures held { OnOk result (map bound held.new.items
        ≡ map bound held.old.items ++ (handle, output) ∷ []) }
    ensures outputs { OnOk result (map arc_value outputs.new.items
        ≡ map arc_value outputs.old.items ++ output ∷ []) }
{
    let product = Arc::new(alloc, output)?;
    let shared = Arc::try_clone(&product)?;
    held.push(Held { handle, product })?;
    match outputs.push(shared) {
        Ok(()) => Ok(()),
        Err((_, error)) => Err(error),
    }
}

// The filter's word on the outputs.
fn passed(product: &Product, outputs: Many<Arc<Product>>) -> Execution
    ensures { result ≡ passed (map arc_value outputs.items) product.now }
{
    let outcome = match product {
        Product::Num(0) => Outcome::Rejected,
        Product::Num(_) => Outcome::Accepted,
        Product::List(_) => Outcome::Accepted,
    };
    Execution { outcome, outputs }
}

// Evaluates the filter where there is one. `held` binds the inputs and all outputs.
fn filter(
    alloc: Global,
    algorithm: &Algorithm,
    held: &[Held],
    outputs: Many<Arc<Product>>,
) -> Result<Execution, AllocError>
    requires { CanExecute algorithm.now }
    ensures { (inputs : List Product)
        → map bound held.now ≡ seen algorithm.now inputs (map arc_value outputs.items)
        → IfOk result (λ it. it ≡ filtered algorithm.now inputs (map arc_value outputs.items)) }
{
    let Some(filter) = &algorithm.filter else {
        return Ok(Execution {
            outcome: Outcome::Accepted,
            outputs,
        });
    };
    match evaluate(alloc, held, filter.nodes())? {
        Ok(product) => Ok(passed(&product, outputs)),
        Err(fault) => Ok(Execution::failed(alloc, Place::Filter, fault)),
    }
}

// The execution of an algorithm over its inputs. The only error is that memory ran out.
pub(crate) fn execute(
    alloc: Global,
    algorithm: &Algorithm,
    inputs: &[Arc<Product>],
) -> Result<Execution, AllocError>
    requires { CanExecute algorithm.now }
    ensures { IfOk result (λ it. it ≡ execution algorithm.now (map arc_value inputs.now)) }
{
    let mut held = bind(alloc, algorithm.inputs(), inputs)?;
    let mut outputs = Many::new(alloc);
    for (number, output) in algorithm.outputs().iter().enumerate() {
        match evaluate(alloc, held.as_slice(), output.value.nodes())? {
            Ok(product) => {
                let handle = usize::from(algorithm.first_output) + number;
                keep(alloc, &mut held, &mut outputs, handle, product)?;
            }
            Err(fault) => {
                let place = Place::Output(number as u16);
                return Ok(Execution::failed(alloc, place, fault));
            }
        }
    }
    Ok(filter(alloc, algorithm, held.as_slice(), outputs)?)
}
