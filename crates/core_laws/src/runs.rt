//! What is true of every state that a journal leads to. Each of these functions does nothing: its contract is
//! the law.
ghost use Rattle.std.specs.Prelude.{◌≡◌, ◌++◌, ◌≤◌, ℕ, List, Some};
ghost use Rattle.core_laws.specs.Bookings.{bookings};
ghost use Rattle.core_laws.specs.Once.{AreOnce};
ghost use Rattle.core_laws.specs.Sound.{IsSound, IsSoundEnd};
ghost use Rattle.event_laws.specs.Uncut.{HasNoCut};
ghost use Rattle.hive_model.specs.Agreement.{Agrees};
ghost use Rattle.hive_model.specs.Event.{event_result};
ghost use Rattle.hive_model.specs.EventRecord.{EventRecord};
ghost use Rattle.hive_model.specs.Job.{Job};
ghost use Rattle.hive_model.specs.Lending.{IsExclusive};
ghost use Rattle.hive_model.specs.Machine.{Finished, Machine};
ghost use Rattle.hive_model.specs.Replay.{IsRun, replay};
ghost use Rattle.hive_model.specs.Valid.{IsValidJob};
ghost use Rattle.hive_model.specs.declared.entry.Entry.{Entry};

/// In every state of a run each event in a slot is sound, each that ended has the result of some results
/// within its closure in which nothing is enabled, and lending is exclusive, whoever claimed what and when.
pub fn runs_are_sound()
    ensures { (job : Job) (slots : ℕ) (records : List EventRecord) (journal : List Entry)
        (m : Machine) → IsValidJob job → replay job slots records journal ≡ Some m
        → IsSound job records m }
{}

/// The beginning of a run is a run. So what holds of each state that a run leads to holds after each of its
/// entries.
pub fn beginnings_are_runs()
    ensures { (job : Job) (slots : ℕ) (records : List EventRecord) (front back : List Entry)
        → IsRun job slots records (front ++ back) → IsRun job slots records front }
{}

/// No instance is lent twice, and of no resource more units than it has, in any state of a run.
pub fn lending_is_exclusive()
    ensures { (job : Job) (slots : ℕ) (records : List EventRecord) (journal : List Entry)
        (m : Machine) → IsValidJob job → replay job slots records journal ≡ Some m
        → IsExclusive job m }
{}

/// In a job without cut nodes an event that ended has the result of its record evaluated alone.
pub fn ended_events_have_their_results()
    ensures { (job : Job) (records : List EventRecord) (admitted : ℕ) (f : Finished)
        (it : IsSoundEnd job records admitted f) → HasNoCut job
        → f.result ≡ event_result job it.event }
{}

/// In every state of a run each record that was admitted is in one slot, or has ended once, and no other
/// place is in a slot or has ended.
pub fn each_record_stands_once()
    ensures { (job : Job) (slots : ℕ) (records : List EventRecord) (journal : List Entry)
        (m : Machine) → replay job slots records journal ≡ Some m → AreOnce m }
{}

/// In a run each algorithm of an event is booked at most once.
pub fn each_algorithm_is_booked_once()
    ensures { (job : Job) (slots : ℕ) (records : List EventRecord) (journal : List Entry)
        (place number : ℕ) → IsValidJob job → IsRun job slots records journal
        → bookings job slots records place number journal ≤ 1 }
{}

/// Also in a job with cut nodes an event that ended agrees with its record: what has run, and each decision
/// that was made, is as the record evaluated alone has it, and it lacks nothing but what a decided cut node
/// cut off.
pub fn ended_events_agree_with_their_records()
    ensures { (job : Job) (records : List EventRecord) (admitted : ℕ) (f : Finished)
        (it : IsSoundEnd job records admitted f) → IsValidJob job → Agrees job it.event f.result }
{}
