//! Laws of what a command line is due.
//!
//! Each public function here does nothing: its contract is the law. Together they say which runs end with their whole
//! text, what generated runs write, how much is done at once by default, and on what the text doesn't depend.
#![tactic(auto)]

ghost use Rattle.std.specs.Prelude.{◌≡◌, ◌≤◌, Bool, List, None, Ok, Option, Some, false, ℕ};
ghost use Rattle.hive_edge.specs.Shelf.{Files};
ghost use Rattle.hive_gen.specs.OptionsText.{options_text};
ghost use Rattle.hive_model.specs.Job.{Job as IsJob};
ghost use Rattle.text_model.specs.Records.{records_of};
ghost use Rattle.text_model.specs.Whole.{ReadToEnd};
ghost use Rattle.text_model.specs.declared.limits.TheConstants.{MOST_EVENTS};
ghost use Rattle.hive_top.specs.Answer.{Answer, IsDue, bulk_answer, file_job, named_job, run_answer};
ghost use Rattle.top_laws.specs.Complete.{IsEnd, counted_answer};
ghost use Rattle.hive_top.specs.Words.{command_of, file_of};
ghost use Rattle.hive_top.specs.declared.commands.Command.TheVariants.{OnFile, Bulk};
ghost use Rattle.hive_top.specs.declared.commands.Concurrency.{Concurrency as IsConcurrency};
ghost use Rattle.hive_top.specs.declared.commands.How.{How as IsHow};
ghost use Rattle.hive_top.specs.declared.commands.TheConstants.{DEFAULT_SLOTS, DEFAULT_WORKERS};
ghost use Rattle.hive_top.specs.declared.commands.Input.{Input as IsInput};
ghost use Rattle.hive_top.specs.declared.commands.Verb.TheVariants.{Run};

use gen_laws::{options_are_read, records_are_read, statuses_are_known};

/// `bulk` is never refused, and what it writes is known from the number of events alone (docs/FORMATS.md, "Generator").
pub fn bulk_is_complete()
    ensures { (input : IsInput) → input.events ≤ MOST_EVENTS
        → bulk_answer input (file_job options_text) ≡ counted_answer input.events }
{
    options_are_read();
    records_are_read();
    statuses_are_known();
}

/// A run whose options are read to a job, and whose records are all read, is due its whole text, and its status says
/// whether all events are ok.
pub fn run_is_complete()
    ensures due { (words : List (List ℕ)) (files : Option Files) (text : List ℕ)
        (how : IsHow) (job : IsJob) (a : Answer)
        → command_of words ≡ Some (OnFile (Run how)) → named_job (file_of words) files ≡ Some (Ok job)
        → IsDue words files (Some text) (Some text) false false a
        → a ≡ run_answer job how.brief ReadToEnd (records_of job text) }
    ensures end { (brief : Bool) (job : IsJob) (text : List ℕ) → (records_of job text).refusal ≡ None
        → IsEnd (run_answer job brief ReadToEnd (records_of job text)).status }
{}

/// Where the words ask for no other number, four workers perform, and four events are in flight.
pub fn four_of_each_by_default()
    ensures workers { DEFAULT_WORKERS ≡ 4 }
    ensures slots { DEFAULT_SLOTS ≡ 4 }
{}

/// What is due depends neither on the number of workers nor on that of slots, nor on whether the journal is asked for.
pub fn concurrency_changes_nothing()
    ensures run { (words other : List (List ℕ)) (files : Option Files)
        (rest now : Option (List ℕ)) (shelf source : Bool) (how further : IsHow) (a : Answer)
        → command_of words ≡ Some (OnFile (Run how))
        → command_of other ≡ Some (OnFile (Run further)) → file_of other ≡ file_of words → further.brief ≡ how.brief
        → IsDue words files rest now shelf source a → IsDue other files rest now shelf source a }
    ensures bulk { (words other : List (List ℕ)) (files : Option Files)
        (rest now : Option (List ℕ)) (shelf source : Bool) (input : IsInput) (one another : IsConcurrency) (a : Answer)
        → command_of words ≡ Some (Bulk input one)
        → command_of other ≡ Some (Bulk input another)
        → IsDue words files rest now shelf source a → IsDue other files rest now shelf source a }
{}
