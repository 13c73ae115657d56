//! One event is brought to the desk.
ghost use Rattle.std.specs.Prelude.{◌≡◌, OnErr, OnOk, false};
ghost use Rattle.event_loop.specs.Running.{IsBrought};
ghost use Rattle.hive_model.specs.Fits.{Fits};
ghost use Rattle.scheduler_core.specs.Says.{is_closed, is_full};
ghost use Rattle.scheduler_core.specs.State.{InState, IsDesk};

use hive_model::EventRecord;
use scheduler_core::{Admit, Desk};
use std::alloc::{AllocError, Global};

/// Admits an event where a slot is empty. The only error is that memory ran out, and then nothing has
/// changed.
pub(crate) fn bring(alloc: Global, desk: &mut Desk, event: EventRecord) -> Result<(), AllocError>
    requires fits { Fits desk.old.job event }
    requires on { is_closed desk.old ≡ false }
    requires free { InState desk.old (λ m. is_full m ≡ false) }
    ensures admitted { OnOk result (IsBrought desk.old event desk.new) }
    ensures unchanged { OnErr result (desk.new ≡ desk.old) }
    ensures desk { IsDesk desk.new }
{
    match desk.admit(alloc, event) {
        Admit::At { .. } => Ok(()),
        Admit::Closed(_) => unreachable!(),
        Admit::Full(_) => unreachable!(),
        Admit::NoMemory(_) => Err(AllocError),
    }
}
