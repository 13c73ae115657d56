//! The event store that results give, and their outcomes.
ghost use Rattle.std.specs.Prelude.{◌≡◌, ◌++◌, IfOk, OnOk, Some, map, slice_get};
ghost use Rattle.std.specs.Arc.{arc_value};
ghost use Rattle.hive_model.specs.Enabled.{all_there, inputs_in, product_in};
ghost use Rattle.hive_model.specs.Results.{fitted, kept, left_by, outcome_at, outcome_of, outcomes, ran_at, store};
ghost use Rattle.hive_model.specs.Store.{shown};

use hive_model::{Algorithm, Duplicate, EventRecord, Execution, Job, Outcome, Product, Store};
use std::alloc::{AllocError, Global};
use std::sync::Arc;

// A copy of the cell of that number, which a record with too few cells lacks.
fn cell_at(
    alloc: Global,
    cells: &[Option<Product>],
    number: usize,
) -> Result<Option<Arc<Product>>, AllocError>
    ensures { IfOk result (λ it. shown it ≡ product_in cells.now number) }
{
    match cells.get(number) {
        Some(Some(product)) => Ok(Some(Arc::new(alloc, product.copy(alloc)?)?)),
        Some(None) => Ok(None),
        None => Ok(None),
    }
}

// Appends `count` places, the first of them as these cells are.
fn push_cells(
    alloc: Global,
    places: &mut Vec<Option<Arc<Product>>>,
    count: usize,
    cells: &[Option<Product>],
) -> Result<(), AllocError>
    ensures { OnOk result (map shown places.new.items
        ≡ map shown places.old.items ++ fitted count cells.now) }
{
    for number in 0..count {
        places.push(cell_at(alloc, cells, number)?)?;
    }
    Ok(())
}

// One more owner of the output of that number, if it is there.
fn output_at(outputs: &[Arc<Product>], number: usize) -> Result<Option<Arc<Product>>, AllocError>
    ensures { IfOk result (λ it. shown it ≡ slice_get (map arc_value outputs.now) number) }
{
    match outputs.get(number) {
        Some(output) => Ok(Some(Arc::try_clone(output)?)),
        None => Ok(None),
    }
}

// Appends `count` places, the first of them with these outputs.
fn push_outputs(
    places: &mut Vec<Option<Arc<Product>>>,
    count: usize,
    outputs: &[Arc<Product>],
) -> Result<(), AllocError>
    ensures { OnOk result (map shown places.new.items
        ≡ map shown places.old.items ++ fitted count (map Some (map arc_value outputs.now))) }
{
    for number in 0..count {
        places.push(output_at(outputs, number)?)?;
    }
    Ok(())
}

// What the event store takes of the algorithm of that number.
fn kept_at(ran: &[Option<Execution>], number: usize) -> &[Arc<Product>]
    ensures { map arc_value result.now ≡ kept (ran_at ran.now number) }
{
    match ran.get(number) {
        Some(Some(execution)) => execution.kept(),
        Some(None) => &[],
        None => &[],
    }
}

// Appends the places of all outputs, algorithm by algorithm.
fn push_left(
    places: &mut Vec<Option<Arc<Product>>>,
    algorithms: &[Algorithm],
    ran: &[Option<Execution>],
) -> Result<(), AllocError>
    ensures { OnOk result (map shown places.new.items
        ≡ map shown places.old.items ++ left_by algorithms.now ran.now) }
{
    for (number, algorithm) in algorithms.iter().enumerate() {
        let outputs = kept_at(ran, number);
        push_outputs(places, algorithm.outputs().len(), outputs)?;
    }
    Ok(())
}

// The event store that these results give. The only error is that memory ran out.
#[tactic(auto, unfolding(hive_model::specs::Results::store))]
pub(crate) fn store_of(
    alloc: Global,
    job: &Job,
    event: &EventRecord,
    ran: &[Option<Execution>],
) -> Result<Store, AllocError>
    ensures { IfOk result (λ it. it ≡ store job.now event.now ran.now) }
{
    let mut places = Vec::new(alloc);
    push_cells(alloc, &mut places, job.raws().len(), event.cells())?;
    push_left(&mut places, job.algorithms(), ran)?;
    Ok(Store::from_places(places))
}

// Whether each of these inputs is there.
pub(crate) fn all_there(store: &Store, inputs: &[u16]) -> bool
    ensures { result ≡ all_there store.now inputs.now }
{
    for input in inputs {
        if !store.has(*input) {
            return false;
        }
    }
    true
}

// The products of the inputs that are there, in input order.
pub(crate) fn inputs_in(
    alloc: Global,
    store: &Store,
    inputs: &[u16],
) -> Result<Vec<Arc<Product>>, AllocError>
    ensures { IfOk result (λ it. map arc_value it.items ≡ inputs_in store.now inputs.now) }
{
    let mut products = Vec::new(alloc);
    for input in inputs {
        if let Some(product) = store.share(*input)? {
            products.push(product)?;
        }
    }
    Ok(products)
}

pub(crate) fn outcome_of(ran: &Option<Execution>) -> Option<Outcome>
    ensures { result ≡ outcome_of ran.now }
{
    match ran {
        Some(execution) => Some(execution.outcome),
        None => None,
    }
}

// The outcomes alone.
pub(crate) fn outcomes_of(
    alloc: Global,
    ran: &[Option<Execution>],
) -> Result<Vec<Option<Outcome>>, AllocError>
    ensures { IfOk result (λ it. it.items ≡ outcomes ran.now) }
{
    let mut outcomes = Vec::with_capacity(alloc, ran.len())?;
    for it in ran {
        outcomes.push(outcome_of(it))?;
    }
    Ok(outcomes)
}

// The outcome of the algorithm of that number, if it has run.
pub(crate) fn outcome_at(outcomes: &[Option<Outcome>], number: usize) -> Option<Outcome>
    ensures { result ≡ outcome_at outcomes.now number }
{
    match outcomes.get(number) {
        Some(outcome) => *outcome,
        None => None,
    }
}
