//! What the status of an event that ended tells. Each of these functions does nothing: its contract is the
//! law.
ghost use Rattle.std.specs.Prelude.{◌≡◌, ◌↔◌, ℕ, List, Some, slice_get};
ghost use Rattle.core_laws.specs.Sound.{IsSoundEnd};
ghost use Rattle.core_laws.specs.Statuses.{HasFault, HasWaiting, IsDecided, IsFaultOf, IsWaiting, LacksInput};
ghost use Rattle.hive_model.specs.EventRecord.{EventRecord};
ghost use Rattle.hive_model.specs.Job.{Job};
ghost use Rattle.hive_model.specs.Machine.{Finished};
ghost use Rattle.hive_model.specs.Valid.{IsValidJob};
ghost use Rattle.hive_model.specs.declared.outcome.Fault.{Fault};
ghost use Rattle.hive_model.specs.declared.outcome.Place.{Place};

use hive_model::{End, EventStatus};

/// An event has failed exactly where an algorithm's end is a fault, and that algorithm's execution over the
/// event's products faults there.
pub fn failed_events()
    ensures status { (job : Job) (records : List EventRecord) (admitted : ℕ) (f : Finished)
        (it : IsSoundEnd job records admitted f)
        → f.result.status ≡ EventStatus.Failed ↔ HasFault f.result }
    ensures execution { (job : Job) (records : List EventRecord) (admitted : ℕ) (f : Finished)
        (it : IsSoundEnd job records admitted f) (number : ℕ) (at : Place) (fault : Fault)
        → slice_get f.result.ends number ≡ Some (End.Failed at fault)
        → IsFaultOf job it.event number at fault }
{}

/// An event is stalled exactly where nothing faulted and an algorithm waits: it was reached and has not
/// run. Each that waits lacks an input, which is an absent cell of the record or an output of an algorithm
/// that has not run.
pub fn stalled_events()
    ensures status { (job : Job) (records : List EventRecord) (admitted : ℕ) (f : Finished)
        (it : IsSoundEnd job records admitted f)
        → f.result.status ≡ EventStatus.Stalled ↔ (HasFault f.result → ⊥) × HasWaiting f.result }
    ensures lacks { (job : Job) (records : List EventRecord) (admitted : ℕ) (f : Finished)
        (it : IsSoundEnd job records admitted f) (number : ℕ) → IsValidJob job
        → f.result.status ≡ EventStatus.Stalled → IsWaiting f.result number
        → LacksInput job it.event f.result number }
{}

/// Where the status is ok the top is decided, also in a job with cut nodes.
pub fn ok_events()
    ensures { (job : Job) (records : List EventRecord) (admitted : ℕ) (f : Finished)
        (it : IsSoundEnd job records admitted f) → IsValidJob job
        → f.result.status ≡ EventStatus.Ok → IsDecided f.result job.top }
{}
