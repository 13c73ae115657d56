//! Results to be sent through a queue.
ghost use Rattle.std.specs.Prelude.{◌≡◌, ◌<◌, IfOk, IsSomeAnd, Some, slice_get};
ghost use Rattle.std.specs.Arc.{arc_value};
ghost use Rattle.expr_code.specs.Claim.{IsOfJob};
ghost use Rattle.hive_model.specs.Job.{Job};
ghost use Rattle.hive_model.specs.Runnable.{CanPerform};

use expr_code::{Claimed, Done, Steps, perform};
use hive_model::{Algorithm, Duplicate, Job, Lent, Many, Scratch, Text};
use std::alloc::{AllocError, Global};
use std::marker::Brand;
use std::sync::Arc;
use std::sync::ledger::{Blank, Ledger};

/// A job of one algorithm that computes nothing.
pub(crate) fn job(alloc: Global) -> Result<Job, AllocError>
    ensures { IfOk result (λ it. IsSomeAnd (slice_get it.algorithms 0) CanPerform) }
{
    let first = Algorithm::new(alloc, Text::from_str(alloc, "Pass")?, 0);
    Ok(Job {
        raws: Many::new(alloc),
        resources: Many::new(alloc),
        algorithms: Many::from_vec(Vec::from_array(alloc, [first])?),
        sequences: Many::new(alloc),
        top: 0,
    })
}

fn executed<L: Ledger>(alloc: Global, claimed: Claimed, blank: Blank) -> Result<Done, AllocError>
    requires name { blank.name ≡ L.name }
    requires parts { blank.parts ≡ L.parts }
    requires some { 0 < L.parts }
    ensures { IfOk result (λ it. it.claim ≡ claimed) }
{
    let mut steps = Steps::<L>::new(blank);
    match perform(alloc, claimed, &mut steps) {
        Ok(done) => Ok(done),
        Err((claimed, error)) => {
            let _lent = claimed.into_lent();
            Err(error)
        }
    }
}

/// A result of the job's first algorithm.
pub(crate) fn result_of(alloc: Global, job: &Job) -> Result<Done, AllocError>
    requires { IsSomeAnd (slice_get job.now.algorithms 0) CanPerform }
    ensures { IfOk result (λ it. IsOfJob job.now it.claim) }
{
    let body = Arc::new(alloc, job.algorithms()[0].copy(alloc)?)?;
    let lent = Lent {
        algorithm: 0,
        clone: Some(0),
        scratch: Scratch::new(alloc, &body)?,
    };
    executed::<Brand>(alloc, Claimed::new(0, 1, body, lent), Blank::new(1))
}
