//! The calls of a desk whose job is known.
//!
//! Each is the desk's own call. Beside what that says, the job stays the desk's, and what it hands out is
//! of that job.
ghost use Rattle.std.specs.Prelude.{◌≤◌, IfOk};
ghost use Rattle.std.specs.Arc.{arc_value};
ghost use Rattle.core_rows.specs.Hands.{HandsOut, IsDeskOf};
ghost use Rattle.expr_code.specs.Claim.{IsOfJob};
ghost use Rattle.hive_model.specs.Fits.{Fits};
ghost use Rattle.hive_model.specs.Valid.{IsValidJob};
ghost use Rattle.hive_model.specs.declared.limits.TheConstants.{MOST_SLOTS};

use event_laws::valid_jobs::valid_is_runnable;
use expr_code::{Claimed, Done};
use hive_model::{EventRecord, EventResult, Job};
use scheduler_core::{Admit, Claim, Desk, Finished, Give, Recall, Said};
use serial_meaning::closure;
use std::alloc::{AllocError, Global};
use std::sync::Arc;

pub(crate) fn open_desk(alloc: Global, job: Arc<Job>, slots: u8) -> Result<Desk, AllocError>
    requires valid { IsValidJob (arc_value job) }
    requires some { 1 ≤ slots }
    requires few { slots ≤ MOST_SLOTS }
    ensures { IfOk result (IsDeskOf (arc_value job)) }
{
    Desk::new(alloc, job, slots)
}

/// A new desk like this one.
pub(crate) fn another(alloc: Global, job: &Job, desk: &Desk) -> Result<Desk, AllocError>
    requires { IsDeskOf job.now desk.now }
    ensures { IfOk result (IsDeskOf job.now) }
{
    let slots = desk.slots();
    Ok(Desk::new(alloc, desk.share_job()?, slots)?)
}

pub(crate) fn admit(alloc: Global, job: &Job, desk: &mut Desk, event: EventRecord) -> Admit
    requires desk { IsDeskOf job.now desk.old }
    requires fits { Fits job.now event }
    ensures { IsDeskOf job.now desk.new }
{
    desk.admit(alloc, event)
}

pub(crate) fn claim(alloc: Global, job: &Job, desk: &mut Desk, worker: u8) -> Claim
    requires { IsDeskOf job.now desk.old }
    ensures desk { IsDeskOf job.now desk.new }
    ensures of_job { HandsOut job.now result }
{
    desk.claim(alloc, worker)
}

pub(crate) fn done(job: &Job, desk: &mut Desk, value: Done) -> Give<Done>
    requires desk { IsDeskOf job.now desk.old }
    requires of_job { IsOfJob job.now value.claim }
    ensures { IsDeskOf job.now desk.new }
{
    desk.done(value)
}

pub(crate) fn back(job: &Job, desk: &mut Desk, value: Claimed) -> Give<Claimed>
    requires desk { IsDeskOf job.now desk.old }
    requires of_job { IsOfJob job.now value }
    ensures { IsDeskOf job.now desk.new }
{
    desk.back(value)
}

pub(crate) fn recall(alloc: Global, job: &Job, desk: &mut Desk) -> Recall
    requires { IsDeskOf job.now desk.old }
    ensures { IsDeskOf job.now desk.new }
{
    desk.recall(alloc)
}

pub(crate) fn retire(job: &Job, desk: &mut Desk) -> Option<Finished>
    requires { IsDeskOf job.now desk.old }
    ensures { IsDeskOf job.now desk.new }
{
    desk.retire()
}

pub(crate) fn last(job: &Job, desk: &mut Desk) -> Said
    requires { IsDeskOf job.now desk.old }
    ensures { IsDeskOf job.now desk.new }
{
    desk.last()
}

/// What the record comes to by itself.
pub(crate) fn alone(
    alloc: Global,
    job: &Job,
    record: &EventRecord,
) -> Result<EventResult, AllocError>
    requires { IsValidJob job.now }
{
    valid_is_runnable();
    closure(alloc, job, record)
}
