//! The calls of a desk whose job is known.
//!
//! Each is the desk's own call. Beside what that says, the job stays the desk's, and what it hands out is
//! of that job.
ghost use Rattle.std.specs.Prelude.{IfOk};
ghost use Rattle.std.specs.Arc.{arc_value};
ghost use Rattle.desk_bench.specs.Waiting.{HandsOut, IsDeskOf};
ghost use Rattle.expr_code.specs.Claim.{IsOfJob};
ghost use Rattle.hive_model.specs.Fits.{Fits};
ghost use Rattle.hive_model.specs.Valid.{IsValidJob};

use event_laws::valid_jobs::valid_is_runnable;
use expr_code::Done;
use hive_model::{EventRecord, EventResult, Job};
use scheduler_core::{Admit, Claim, Desk, Finished, Give};
use serial_meaning::closure;
use std::alloc::{AllocError, Global};
use std::sync::Arc;

/// How many slots a desk has.
pub(crate) const SLOTS: u8 = 4;

pub(crate) fn open_desk(alloc: Global, job: Arc<Job>) -> Result<Desk, AllocError>
    requires { IsValidJob (arc_value job) }
    ensures { IfOk result (IsDeskOf (arc_value job)) }
{
    Desk::new(alloc, job, SLOTS)
}

pub(crate) fn admit(alloc: Global, job: &Job, desk: &mut Desk, event: EventRecord) -> Admit
    requires desk { IsDeskOf job.now desk.old }
    requires fits { Fits job.now event }
    ensures { IsDeskOf job.now desk.new }
{
    desk.admit(alloc, event)
}

pub(crate) fn claim(alloc: Global, job: &Job, desk: &mut Desk) -> Claim
    requires { IsDeskOf job.now desk.old }
    ensures desk { IsDeskOf job.now desk.new }
    ensures of_job { HandsOut job.now result }
{
    desk.claim(alloc, 0)
}

pub(crate) fn done(job: &Job, desk: &mut Desk, value: Done) -> Give<Done>
    requires desk { IsDeskOf job.now desk.old }
    requires of_job { IsOfJob job.now value.claim }
    ensures { IsDeskOf job.now desk.new }
{
    desk.done(value)
}

pub(crate) fn retire(job: &Job, desk: &mut Desk) -> Option<Finished>
    requires { IsDeskOf job.now desk.old }
    ensures { IsDeskOf job.now desk.new }
{
    desk.retire()
}

/// What the record comes to by itself.
pub(crate) fn alone(
    alloc: Global,
    job: &Job,
    event: &EventRecord,
) -> Result<EventResult, AllocError>
    requires { IsValidJob job.now }
{
    valid_is_runnable();
    closure(alloc, job, event)
}
