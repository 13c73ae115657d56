//! How a hall is opened for a loop and its workers.
ghost use Rattle.std.specs.Prelude.{◌≡◌, ◌+◌, ◌≤◌, IfOk, length};
ghost use Rattle.std.specs.Arc.{arc_value};
ghost use Rattle.hall_loop.specs.Opened.{IsOpened};
ghost use Rattle.hive_model.specs.Valid.{IsValidJob};
ghost use Rattle.hive_model.specs.declared.limits.TheConstants.{MOST_SLOTS};
ghost use Rattle.hall_loop.specs.declared.limits.TheConstants.{MOST_WORKERS};

use crate::hall_loop::HallLoop;
use crate::limits::MOST_WORKERS;
use event_loop::Waiting;
use hive_hall::{Hall, Pass};
use hive_model::{Job, Many};
use report_text::Counts;
use scheduler_core::Desk;
use std::alloc::{AllocError, Global};
use std::sync::Arc;

/// A hall with a loop, and the passes of its workers.
pub struct Opened {
    pub hall: Hall,
    pub workers: Many<Pass>,
    pub events: HallLoop,
}

/// Opens a hall for a job with so many slots, from 1 to [`MOST_SLOTS`](hive_model::MOST_SLOTS), and so many workers,
/// at most [`MOST_WORKERS`](crate::MOST_WORKERS). Nothing is in flight yet. The only error is that memory ran out.
pub fn open(alloc: Global, job: Arc<Job>, slots: u8, workers: u8) -> Result<Opened, AllocError>
    requires valid { IsValidJob (arc_value job) }
    requires some { 1 ≤ slots }
    requires few { slots ≤ MOST_SLOTS }
    requires workers { workers ≤ MOST_WORKERS }
    ensures { IfOk result (λ it. IsOpened (arc_value job) slots workers it.hall it.workers it.events) }
{
    let desk = Desk::new(alloc, job, slots)?;
    let waiting = Waiting::new(alloc, 2 * usize::from(slots))?;
    let Ok((hall, passes)) = Hall::new(alloc, desk, workers + 1) else {
        return Err(AllocError);
    };
    let mut passes = passes;
    let Some(pass) = passes.pop() else {
        unreachable!()
    };
    let events = HallLoop {
        pass,
        waiting,
        counts: Counts::new(),
        slots,
        admitted: 0,
        handed: 0,
        closed: false,
    };
    Ok(Opened {
        hall,
        workers: passes,
        events,
    })
}
