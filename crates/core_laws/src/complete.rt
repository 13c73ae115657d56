//! What a complete run comes to. Each of these functions does nothing: its contract is the law.
ghost use Rattle.std.specs.Prelude.{◌≡◌, ℕ, ◌<◌, ◌≤◌, ◌+◌, List, Some, length, map, slice_get};
ghost use Rattle.std.specs.List.{count_by};
ghost use Rattle.core_laws.specs.Once.{HasEndedAs, ended_at};
ghost use Rattle.event_laws.specs.Uncut.{HasNoCut};
ghost use Rattle.hive_model.specs.Agreement.{Agrees};
ghost use Rattle.hive_model.specs.Event.{event_result};
ghost use Rattle.hive_model.specs.EventRecord.{EventRecord};
ghost use Rattle.hive_model.specs.Job.{Job};
ghost use Rattle.hive_model.specs.Machine.{Machine};
ghost use Rattle.hive_model.specs.Replay.{IsAtEnd, replay, results_in_order};
ghost use Rattle.hive_model.specs.Valid.{IsValidJob};
ghost use Rattle.hive_model.specs.declared.entry.Entry.{Entry};

/// A complete run has ended each of the records once, at its place, and nothing else. In a job without cut
/// nodes the results in the order of their places are those of each record evaluated alone. With cut nodes
/// each result agrees with its record.
pub fn complete_runs_have_all_results()
    ensures once { (job : Job) (slots : ℕ) (records : List EventRecord) (journal : List Entry)
        (m : Machine) (place : ℕ) → replay job slots records journal ≡ Some m → IsAtEnd records m
        → 0 < place → place ≤ length records → count_by (ended_at place) m.finished ≡ 1 }
    ensures no_other { (job : Job) (slots : ℕ) (records : List EventRecord) (journal : List Entry)
        (m : Machine) → replay job slots records journal ≡ Some m → IsAtEnd records m
        → length m.finished ≡ length records }
    ensures results { (job : Job) (slots : ℕ) (records : List EventRecord) (journal : List Entry)
        (m : Machine) → IsValidJob job → HasNoCut job
        → replay job slots records journal ≡ Some m → IsAtEnd records m
        → results_in_order m ≡ map (event_result job) records }
    ensures agree { (job : Job) (slots : ℕ) (records : List EventRecord) (journal : List Entry)
        (m : Machine) (i : ℕ) (event : EventRecord) → IsValidJob job
        → replay job slots records journal ≡ Some m → IsAtEnd records m
        → slice_get records i ≡ Some event → HasEndedAs m (i + 1) (Agrees job event) }
{}

/// Two complete runs over the same records come to the same results, with however many slots, and in whatever
/// order the algorithms were claimed and booked.
pub fn complete_runs_agree()
    ensures { (job : Job) (slots others : ℕ) (records : List EventRecord) (journal other : List Entry)
        (m n : Machine) → IsValidJob job → HasNoCut job
        → replay job slots records journal ≡ Some m → IsAtEnd records m
        → replay job others records other ≡ Some n → IsAtEnd records n
        → results_in_order m ≡ results_in_order n }
{}
