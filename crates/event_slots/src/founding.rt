//! What the slots of a job begin with.
ghost use Rattle.std.specs.Prelude.{◌≡◌, IfOk, length, map};
ghost use Rattle.std.specs.Arc.{arc_value};
ghost use Rattle.std.specs.List.{AllByRecursion};
ghost use Rattle.event_slots.specs.Seats.{IsVacantFor};
ghost use Rattle.hive_model.specs.Valid.{IsValidJob};

use crate::seat::Seat;
use hive_model::{Algorithm, Duplicate, Job};
use std::alloc::{AllocError, Global};
use std::sync::Arc;

/// Copies of the algorithms, to be shared with those who perform them. The only error is that memory ran out.
pub(crate) fn shared_bodies(
    alloc: Global,
    algorithms: &[Algorithm],
) -> Result<Vec<Arc<Algorithm>>, AllocError>
    ensures { IfOk result (λ it. map arc_value it.items ≡ algorithms.now) }
{
    let mut bodies = Vec::with_capacity(alloc, algorithms.len())?;
    for algorithm in algorithms {
        bodies.push(Arc::new(alloc, algorithm.copy(alloc)?)?)?;
    }
    Ok(bodies)
}

/// So many empty seats for the events of a job. The only error is that memory ran out.
pub(crate) fn empty_seats(alloc: Global, job: &Job, count: u8) -> Result<Vec<Seat>, AllocError>
    requires { IsValidJob job.now }
    ensures count { IfOk result (λ it. length it.items ≡ count) }
    ensures seats { IfOk result (λ it. AllByRecursion (IsVacantFor job.now) it.items) }
{
    let mut seats = Vec::with_capacity(alloc, usize::from(count))?;
    for _seat in 0..count {
        seats.push(Seat::new(alloc, job)?)?;
    }
    Ok(seats)
}
