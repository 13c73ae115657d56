//! Instances with their inputs, borrowed from the pools.
ghost use Rattle.std.specs.Prelude.{◌≡◌, ◌<◌, List, Option, Some, IfOk, OnOk, IsSomeAnd, length, slice_get};
ghost use Rattle.std.specs.Arc.{arc_value};
ghost use Rattle.event_slots.specs.Attempts.{BorrowSays};
ghost use Rattle.hive_model.specs.Enabled.{inputs_in};
ghost use Rattle.hive_model.specs.Machine.{Busy};
ghost use Rattle.hive_model.specs.Scratch.{Keeps};
ghost use Rattle.loan_laws.specs.Loans.{ArePoolsOf};

use crate::borrowed::Borrowed;
use clone_pools::{Lend, Pools};
use hive_model::{Algorithm, Job, Lent, Store};
use std::alloc::{AllocError, Global};
use std::sync::Arc;

/// Borrows an instance of an algorithm for the event at a place of the input, and shares the event's
/// products for the inputs into it. Where nothing is borrowed, the pools are as before.
pub(crate) fn borrow(
    pools: &mut Pools,
    alloc: Global,
    job: &Job,
    store: &Store,
    body: &Arc<Algorithm>,
    number: u16,
    place: u64,
) -> Borrowed
    requires known { (slots : List (Option Busy)) × ArePoolsOf job.now slots pools.old }
    requires of_job { slice_get job.now.algorithms number ≡ Some (arc_value body.now) }
    ensures { BorrowSays pools.old store.now (arc_value body.now) number place result pools.new }
{
    match pools.lend(alloc, number, place) {
        Lend::Lent(lent) => {
            let mut lent = lent;
            match load(job, store, body, &mut lent) {
                Ok(body) => Borrowed::Lent(body, lent),
                Err(_) => {
                    pools.give_back(lent);
                    Borrowed::NoMemory
                }
            }
        }
        Lend::NotFree => Borrowed::NotFree,
        Lend::NoMemory => Borrowed::NoMemory,
    }
}

// Shares the inputs into an instance, and the algorithm. The only error is that memory ran out.
fn load(
    job: &Job,
    store: &Store,
    body: &Arc<Algorithm>,
    lent: &mut Lent,
) -> Result<Arc<Algorithm>, AllocError>
    requires { lent.old.algorithm < length job.now.algorithms }
    ensures body { IfOk result (λ it. arc_value it ≡ arc_value body.now) }
    ensures inputs { OnOk result (IsSomeAnd (slice_get job.now.algorithms lent.old.algorithm)
        (λ a. lent.new.scratch.inputs ≡ inputs_in store.now a.inputs)) }
    ensures room { Keeps lent.old.scratch lent.new.scratch }
    ensures algorithm { lent.new.algorithm ≡ lent.old.algorithm }
    ensures clone { lent.new.clone ≡ lent.old.clone }
{
    lent.load(job, store)?;
    Ok(Arc::try_clone(body)?)
}
