//! Longer journals and longer inputs. Each of these functions does nothing: its contract is the law.
ghost use Rattle.std.specs.Prelude.{◌≡◌, ◌++◌, ◌∷◌, ℕ, false, List, Some, []};
ghost use Rattle.std.specs.List.{list_any};
ghost use Rattle.std.specs.Option.{option_and_then};
ghost use Rattle.core_laws.specs.Closing.{is_last};
ghost use Rattle.core_laws.specs.Tickets.{HaveEntries};
ghost use Rattle.hive_model.specs.EventRecord.{EventRecord};
ghost use Rattle.hive_model.specs.Job.{Job};
ghost use Rattle.hive_model.specs.Machine.{Machine};
ghost use Rattle.hive_model.specs.Replay.{IsRun, replay};
ghost use Rattle.hive_model.specs.Step.{step};
ghost use Rattle.hive_model.specs.declared.entry.Entry.{Entry};

use hive_model::Entry;

/// A journal with one entry more leads to the state after that entry's step.
pub fn one_entry_more()
    ensures { (job : Job) (slots : ℕ) (records : List EventRecord) (journal : List Entry)
        (entry : Entry) → replay job slots records (journal ++ entry ∷ [])
        ≡ option_and_then (λ m. step job records journal m entry)
        (replay job slots records journal) }
{}

/// Records that come behind those that are there change nothing of a run.
pub fn more_records_change_no_run()
    ensures { (job : Job) (slots : ℕ) (records more : List EventRecord) (journal : List Entry)
        (m : Machine) → replay job slots records journal ≡ Some m
        → replay job slots (records ++ more) journal ≡ Some m }
{}

/// The ticket of each claim that is outstanding is the index of the claim's own entry in the journal.
pub fn tickets_name_their_entries()
    ensures { (job : Job) (slots : ℕ) (records : List EventRecord) (journal : List Entry)
        (m : Machine) → replay job slots records journal ≡ Some m → HaveEntries journal m }
{}

/// Last stands in the journal exactly where the state is closed. No event is admitted behind it, and it is
/// said once.
pub fn last_closes()
    ensures closed { (job : Job) (slots : ℕ) (records : List EventRecord) (journal : List Entry)
        (m : Machine) → replay job slots records journal ≡ Some m
        → m.closed ≡ list_any is_last journal }
    ensures no_admission { (job : Job) (slots : ℕ) (records : List EventRecord) (front back : List Entry)
        (slot place : ℕ) → IsRun job slots records (front ++ Entry.Admit slot place ∷ back)
        → list_any is_last front ≡ false }
    ensures said_once { (job : Job) (slots : ℕ) (records : List EventRecord) (front back : List Entry)
        → IsRun job slots records (front ++ Entry.Last ∷ back) → list_any is_last front ≡ false }
{}
