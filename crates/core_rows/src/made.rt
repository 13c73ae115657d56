//! Claims that no desk handed out.
ghost use Rattle.std.specs.Prelude.{◌≡◌, ◌<◌, Some, IfOk, IfSome, length, slice_get};
ghost use Rattle.std.specs.Arc.{arc_value};
ghost use Rattle.expr_code.specs.Claim.{IsOfJob};
ghost use Rattle.hive_model.specs.Runnable.{CanPerform};
ghost use Rattle.hive_model.specs.Scratch.{IsMadeFor};
ghost use Rattle.hive_model.specs.Valid.{IsValidJob};

use crate::desks::alone;
use crate::words::{long, short, word};
use event_laws::valid_jobs::valid_is_runnable;
use expr_code::Claimed;
use hive_model::{Algorithm, Duplicate, EventRecord, Job, Lent, Scratch, Store};
use std::alloc::{AllocError, Global};
use std::sync::Arc;

/// A claim made by hand: words 2 to 5 are its ticket, its algorithm, its instance, and the record over whose
/// products it is. `None` where there is no such algorithm or record.
pub(crate) fn made(
    alloc: Global,
    job: &Job,
    records: &[EventRecord],
    words: &[&str],
) -> Result<Option<Claimed>, AllocError>
    requires { IsValidJob job.now }
    ensures { IfOk result (λ o. IfSome o (IsOfJob job.now)) }
{
    let number = short(words, 3);
    if usize::from(number) >= job.algorithms().len() {
        return Ok(None);
    }
    let Some(record) = record_at(records, long(words, 5)) else {
        return Ok(None);
    };
    let ended = alone(alloc, job, record)?;
    Ok(Some(made_over(alloc, job, &ended.store, number, words)?))
}

// The claim over what a store holds.
fn made_over(
    alloc: Global,
    job: &Job,
    store: &Store,
    number: u16,
    words: &[&str],
) -> Result<Claimed, AllocError>
    requires valid { IsValidJob job.now }
    requires there { number < length job.now.algorithms }
    ensures { IfOk result (IsOfJob job.now) }
{
    let body = body(alloc, job, number)?;
    let mut scratch = Scratch::new(alloc, &body)?;
    scratch.load(body.inputs(), store)?;
    let lent = Lent {
        algorithm: number,
        clone: word(words, 4).parse().ok(),
        scratch,
    };
    Ok(claimed(job, Arc::new(alloc, body)?, lent, words))
}

fn claimed(job: &Job, body: Arc<Algorithm>, lent: Lent, words: &[&str]) -> Claimed
    requires performs { CanPerform (arc_value body) }
    requires made_for { IsMadeFor (arc_value body) lent.scratch }
    requires of_job { slice_get job.now.algorithms lent.algorithm ≡ Some (arc_value body) }
    ensures { IsOfJob job.now result }
{
    Claimed::new(long(words, 2), long(words, 5), body, lent)
}

// A copy of the job's algorithm of that number.
fn body(alloc: Global, job: &Job, number: u16) -> Result<Algorithm, AllocError>
    requires valid { IsValidJob job.now }
    requires there { number < length job.now.algorithms }
    ensures body { IfOk result (λ it. slice_get job.now.algorithms number ≡ Some it) }
    ensures performs { IfOk result CanPerform }
{
    algorithm_at(job, number).copy(alloc)
}

fn algorithm_at(job: &Job, number: u16) -> &Algorithm
    requires valid { IsValidJob job.now }
    requires there { number < length job.now.algorithms }
    ensures body { slice_get job.now.algorithms number ≡ Some result.now }
    ensures performs { CanPerform result.now }
{
    valid_is_runnable();
    &job.algorithms()[usize::from(number)]
}

/// The record at a place, from 1.
pub(crate) fn record_at(records: &[EventRecord], place: u64) -> Option<&EventRecord> {
    let index = place.checked_sub(1)?;
    records.get(usize::try_from(index).ok()?)
}
