//! What an entry of the journal leaves true of an event in a slot. Each of these functions does nothing: its
//! contract is the law.
ghost use Rattle.std.specs.Prelude.{◌≡◌, ℕ, List, None, Option, Some, true, length, slice_get, slice_set};
ghost use Rattle.core_laws.specs.Sound.{IsSoundFor};
ghost use Rattle.hive_model.specs.Agreement.{AreWithin};
ghost use Rattle.hive_model.specs.Algorithm.{Algorithm};
ghost use Rattle.hive_model.specs.Closure.{closure};
ghost use Rattle.hive_model.specs.DataFlow.{AreNumberedFrom};
ghost use Rattle.hive_model.specs.EventRecord.{EventRecord};
ghost use Rattle.hive_model.specs.Execution.{execution};
ghost use Rattle.hive_model.specs.Job.{Job};
ghost use Rattle.hive_model.specs.Machine.{Busy, Outstanding, begun, claim_at};
ghost use Rattle.hive_model.specs.Step.{can_claim, claimed, completed};

/// An event is sound from its admission on, and stays so when an algorithm of it is claimed, when the claim's
/// execution is booked, and when the claim is put back.
pub fn events_stay_sound()
    ensures admitted { (job : Job) (event : EventRecord) (place : ℕ)
        → IsSoundFor job event (begun job place event) }
    ensures claimed { (job : Job) (event : EventRecord) (b : Busy) (number : ℕ) (a : Algorithm)
        (ticket : ℕ) (clone : Option ℕ) → IsSoundFor job event b
        → slice_get job.algorithms number ≡ Some a → can_claim job b number ≡ true
        → IsSoundFor job event (claimed b number a ticket clone) }
    ensures done { (job : Job) (event : EventRecord) (b : Busy) (number : ℕ) (a : Algorithm)
        (claim : Outstanding) → AreNumberedFrom (length job.raws) job.algorithms
        → IsSoundFor job event b → slice_get job.algorithms number ≡ Some a
        → claim_at b number ≡ Some claim
        → IsSoundFor job event (completed b number a (execution a claim.inputs)) }
    ensures back { (job : Job) (event : EventRecord) (b : Busy) (number : ℕ)
        → IsSoundFor job event b
        → IsSoundFor job event (record b { claims = slice_set b.claims number None }) }
{}

/// The results of a sound event lie within the closure of its record.
pub fn sound_events_lie_within_the_closure()
    ensures { (job : Job) (event : EventRecord) (b : Busy) → IsSoundFor job event b
        → AreWithin b.ran (closure job event) }
{}
