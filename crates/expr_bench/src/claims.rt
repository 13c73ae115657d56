//! Claims that are performed again and again with one scratch.
ghost use Rattle.std.specs.Prelude.{◌≡◌, ◌<◌, ◌≤◌, IfOk, length};
ghost use Rattle.std.specs.Arc.{arc_value};
ghost use Rattle.hive_model.specs.Runnable.{AreInOrder, CanPerform};
ghost use Rattle.hive_model.specs.Scratch.{IsMadeFor};

use expr_code::{Claimed, Steps, perform};
use hive_model::{
    Algorithm, Duplicate, Expr, Ints, Job, Kind, Lent, Many, Output, Product, Scratch, Store, Text,
};
use std::alloc::{AllocError, Global};
use std::sync::Arc;
use std::sync::ledger::{Blank, Ledger};

/// An algorithm that computes the expression over the list with handle 0.
fn algorithm(alloc: Global, value: Expr) -> Result<Algorithm, AllocError>
    requires { AreInOrder value }
    ensures { IfOk result CanPerform }
{
    let mut inputs = Vec::new(alloc);
    inputs.push(0)?;
    let mut outputs = Vec::new(alloc);
    outputs.push(Output {
        name: Text::from_str(alloc, "v")?,
        kind: Kind::Num,
        value,
    })?;
    Ok(Algorithm {
        name: Text::from_str(alloc, "X")?,
        cardinality: 1,
        resources: Many::new(alloc),
        inputs: Many::from_vec(inputs),
        first_output: 1,
        outputs: Many::from_vec(outputs),
        filter: None,
    })
}

/// Performs a claim of the body with the instance on loan, which comes back.
fn perform_once<L: Ledger>(
    alloc: Global,
    body: &Arc<Algorithm>,
    lent: Lent,
    steps: &mut Steps<L>,
) -> Result<Lent, AllocError>
    requires performs { CanPerform (arc_value body.now) }
    requires made_for { IsMadeFor (arc_value body.now) lent.scratch }
    ensures { IfOk result (λ it. IsMadeFor (arc_value body.now) it.scratch) }
{
    let claimed = Claimed::new(0, 1, Arc::try_clone(body)?, lent);
    match perform(alloc, claimed, steps) {
        Ok(done) => {
            let (lent, _outcome, _outputs) = done.into_parts();
            Ok(lent)
        }
        Err((claimed, error)) => {
            let _lent = claimed.into_lent();
            Err(error)
        }
    }
}

/// A store whose handle 0 holds those numbers.
fn store(alloc: Global, hits: &[i64]) -> Result<Store, AllocError>
    requires { length hits.now ≤ 1024 }
{
    let mut places = Vec::new(alloc);
    let hits = Product::List(Ints::from_slice(alloc, hits)?);
    places.push(Some(Arc::new(alloc, hits)?))?;
    Ok(Store::from_places(places))
}

/// The job of that algorithm alone.
fn job(alloc: Global, algorithm: Algorithm) -> Result<Job, AllocError>
    ensures { IfOk result (λ it. length it.algorithms ≡ 1) }
{
    let mut algorithms = Vec::new(alloc);
    algorithms.push(algorithm)?;
    Ok(Job {
        raws: Many::new(alloc),
        resources: Many::new(alloc),
        algorithms: Many::from_vec(algorithms),
        sequences: Many::new(alloc),
        top: 0,
    })
}

/// An instance of the algorithm that holds the list.
fn instance(alloc: Global, body: &Algorithm, hits: &[i64]) -> Result<Lent, AllocError>
    requires few { length hits.now ≤ 1024 }
    ensures { IfOk result (λ it. IsMadeFor body.now it.scratch) }
{
    let job = job(alloc, body.copy(alloc)?)?;
    let mut lent = Lent {
        algorithm: 0,
        clone: Some(0),
        scratch: Scratch::new(alloc, body)?,
    };
    lent.load(&job, &store(alloc, hits)?)?;
    Ok(lent)
}

/// Performs a claim of an expression over a list so often.
pub(crate) fn perform_often<L: Ledger>(
    alloc: Global,
    value: Expr,
    hits: &[i64],
    count: u32,
    blank: Blank,
) -> Result<(), AllocError>
    requires order { AreInOrder value }
    requires few { length hits.now ≤ 1024 }
    requires name { blank.name ≡ L.name }
    requires parts { blank.parts ≡ L.parts }
    requires some { 0 < L.parts }
{
    let body = algorithm(alloc, value)?;
    let mut lent = instance(alloc, &body, hits)?;
    let body = Arc::new(alloc, body)?;
    let mut steps = Steps::<L>::new(blank);
    for _time in 0..count {
        lent = perform_once(alloc, &body, lent, &mut steps)?;
    }
    Ok(())
}
