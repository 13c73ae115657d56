//! Laws of generated inputs: what their texts are read as.
//!
//! Each public function here does nothing: its contract is the law. Together they say that a run over
//! generated options and records is never refused: the options are a job, and the records are all read and
//! fit it.
#![tactic(auto)]

ghost use Rattle.std.specs.Prelude.{◌≡◌, ℕ, ◌<◌, ◌≤◌, ◌-◌, ◌/◌, None, Ok};
ghost use Rattle.std.specs.List.{AllByRecursion};
ghost use Rattle.gen_laws.specs.GeneratedJob.{generated_job};
ghost use Rattle.gen_laws.specs.Results.{results_of, status_at};
ghost use Rattle.hive_gen.specs.EventTexts.{records_text};
ghost use Rattle.hive_gen.specs.Events.{event_of, events_of};
ghost use Rattle.hive_gen.specs.OptionsText.{options_text};
ghost use Rattle.hive_model.specs.Event.{event_result};
ghost use Rattle.hive_model.specs.Fits.{Fits};
ghost use Rattle.text_model.specs.Jobs.{job_of};
ghost use Rattle.text_model.specs.Language.{Language};
ghost use Rattle.text_model.specs.Records.{records_of};
ghost use Rattle.text_model.specs.Whole.{is_failed, is_ok, is_stalled, tally};
ghost use Rattle.text_model.specs.declared.limits.TheConstants.{MOST_EVENTS};

/// The generated options are read as this job, whichever versions a reader knows (docs/FORMATS.md,
/// "Generator").
pub fn options_are_read()
    ensures { (language : Language) → job_of language options_text ≡ Ok generated_job }
{}

/// The records that are generated from any start are read whole, as the events that they were written for,
/// and each of them fits the job (docs/FORMATS.md, "Generator").
pub fn records_are_read()
    ensures read { (start events : ℕ) → events ≤ MOST_EVENTS
        → records_of generated_job (records_text start events)
        ≡ record { records = events_of start events; refusal = None } }
    ensures fits { (start events : ℕ) → AllByRecursion (Fits generated_job) (events_of start events) }
{}

/// A generated event has failed where its number is a multiple of 25, since its divisor is 0; else it is
/// stalled where its number is a multiple of 10, since it lacks hits; else it is ok. So how many of the
/// events ended how is told by how many there are (docs/FORMATS.md, "Generator").
pub fn statuses_are_known()
    ensures each { (number state : ℕ) → 0 < number
        → (event_result generated_job (event_of number state)).status ≡ status_at number }
    ensures failed { (start events : ℕ) → tally is_failed (results_of start events) ≡ events / 25 }
    ensures stalled { (start events : ℕ)
        → tally is_stalled (results_of start events) ≡ events / 10 - events / 50 }
    ensures ok { (start events : ℕ)
        → tally is_ok (results_of start events) ≡ events - events / 25 - (events / 10 - events / 50) }
{}
