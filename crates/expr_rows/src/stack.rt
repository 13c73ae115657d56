//! An expression on the stack of a scratch.
ghost use Rattle.std.specs.Prelude.{◌≡◌, ◌<◌};
ghost use Rattle.hive_model.specs.Runnable.{AreInOrder, CanPerform};

use crate::body::body;
use crate::shown::{show, show_fault};
use expr_code::{Claimed, Done, Steps, perform};
use hive_model::{Algorithm, Expr, Kind, Lent, Many, Outcome, Product, Scratch, Store};
use std::alloc::{AllocError, Global};
use std::marker::Brand;
use std::sync::Arc;
use std::sync::ledger::{Blank, Ledger};

/// The value or the fault, as it is shown.
pub(crate) fn by_stack(
    alloc: Global,
    kind: Kind,
    value: Expr,
    hits: Product,
) -> Result<String, AllocError>
    requires { AreInOrder value }
{
    let store = store(alloc, hits)?;
    let claimed = claimed(alloc, body(alloc, kind, value)?, &store)?;
    let done = spend::<Brand>(alloc, claimed, Blank::new(1))?;
    show_done(alloc, done)
}

fn show_done(alloc: Global, done: Done) -> Result<String, AllocError> {
    let (_lent, outcome, outputs) = done.into_parts();
    match outcome {
        Outcome::Failed(_, fault) => show_fault(alloc, fault),
        _ => show_first(alloc, &outputs),
    }
}

fn show_first(alloc: Global, outputs: &Many<Arc<Product>>) -> Result<String, AllocError> {
    match outputs.as_slice().first() {
        Some(product) => show(alloc, Some(&**product)),
        None => show(alloc, None),
    }
}

fn store(alloc: Global, hits: Product) -> Result<Store, AllocError> {
    let mut places = Vec::with_capacity(alloc, 3)?;
    places.push(Some(Arc::new(alloc, hits)?))?;
    places.push(Some(Arc::new(alloc, Product::Num(7))?))?;
    places.push(Some(Arc::new(alloc, Product::Num(9))?))?;
    Ok(Store::from_places(places))
}

// The claim of the algorithm over what the store holds.
fn claimed(alloc: Global, body: Algorithm, store: &Store) -> Result<Claimed, AllocError>
    requires { CanPerform body }
{
    let mut scratch = Scratch::new(alloc, &body)?;
    scratch.load(body.inputs(), store)?;
    let lent = Lent {
        algorithm: 0,
        clone: Some(0),
        scratch,
    };
    Ok(Claimed::new(0, 1, Arc::new(alloc, body)?, lent))
}

fn spend<L: Ledger>(alloc: Global, claimed: Claimed, blank: Blank) -> Result<Done, AllocError>
    requires name { blank.name ≡ L.name }
    requires parts { blank.parts ≡ L.parts }
    requires some { 0 < L.parts }
{
    let mut steps = Steps::<L>::new(blank);
    match perform(alloc, claimed, &mut steps) {
        Ok(done) => Ok(done),
        Err((claimed, error)) => {
            let _lent = claimed.into_lent();
            Err(error)
        }
    }
}
