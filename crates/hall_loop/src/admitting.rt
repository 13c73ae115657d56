//! Events are admitted.
ghost use Rattle.hall_loop.specs.Beside.{AdmitsBeside, HasRoomBeside, HoldsNothing, IsBeside};
ghost use Rattle.hive_hall.specs.Pass.{job_of};
ghost use Rattle.hive_model.specs.Fits.{Fits};

use crate::hall_loop::HallLoop;
use crate::step::Fault;
use hive_hall::Hall;
use hive_model::EventRecord;
use scheduler_core::Admit;
use std::alloc::Global;
use std::sync::Wait;

// As many records as can be counted: counts are numbers of 32 bits.
const MOST_RECORDS: u64 = 0xFFFF_FFFF;

impl HallLoop {
    /// Admits an event, where there is room. Where it wasn't admitted nothing has changed.
    pub fn admit<R: Wait>(
        &mut self,
        rt: &R,
        alloc: Global,
        hall: &Hall,
        event: EventRecord,
    ) -> Result<(), Fault>
        requires beside { IsBeside hall.now self.old }
        requires fits { Fits (job_of hall.now) event }
        requires room { HasRoomBeside self.old }
        ensures says { AdmitsBeside hall.now self.old event result self.new }
        ensures none_held { HoldsNothing hall.now self.old.pass → HoldsNothing hall.now self.new.pass }
        ensures beside { IsBeside hall.now self.new }
    {
        if self.admitted >= MOST_RECORDS {
            return Err(Fault::NoMemory);
        }
        match hall.admit(rt, alloc, &mut self.pass, event) {
            Admit::At { slot: _, place } => {
                // the place tells that no other has admitted anything
                if place != self.admitted + 1 {
                    return Err(Fault::Lost);
                }
                self.admitted += 1;
                Ok(())
            }
            Admit::Closed(_) => Err(Fault::Lost),
            Admit::Full(_) => Err(Fault::Lost),
            Admit::NoMemory(_) => Err(Fault::NoMemory),
        }
    }
}
