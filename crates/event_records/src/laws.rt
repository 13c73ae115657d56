//! Laws of what is known of a text so far.
ghost use Rattle.std.specs.Prelude.{◌≡◌, ℕ, ◌+◌, ◌*◌, ◌≤◌, ◌++◌, Bool, List, None, Some, length};
ghost use Rattle.std.specs.List.{AllByRecursion};
ghost use Rattle.hive_model.specs.EventRecord.{EventRecord};
ghost use Rattle.hive_model.specs.Fits.{Fits};
ghost use Rattle.hive_model.specs.Job.{Job};
ghost use Rattle.text_model.specs.Records.{so_far};
ghost use Rattle.text_model.specs.declared.limits.TheConstants.{MOST_LINES, MOST_LINE_BYTES, MOST_RECORDS_BYTES};
ghost use Rattle.text_model.specs.declared.record_refusal.RecordRefusal.{RecordRefusal};
ghost use Rattle.event_records.specs.Reading.{told};

/// What is known of a text so far stays: once a line was refused, every longer text has the same records and the
/// same refusal, whether it has ended or may go on; and the records so far are the first ones of every longer text
/// (docs/FORMATS.md, "Records in pieces").
pub fn what_is_known_stays()
    ensures refusal { (over : Bool) (job : Job) (text more : List ℕ) (refusal : RecordRefusal)
        → (so_far job text).refusal ≡ Some refusal
        → told over job (text ++ more) ≡ so_far job text }
    ensures records { (over : Bool) (job : Job) (text more : List ℕ)
        → (later : List EventRecord)
        × ((told over job (text ++ more)).records ≡ (so_far job text).records ++ later) }
{}

/// Each record of a text fits its job: it has a cell for each raw handle, absent or of the handle's kind.
pub fn records_fit()
    ensures { (over : Bool) (job : Job) (text : List ℕ)
        → AllByRecursion (Fits job) (told over job text).records }
{}

/// A text that may go on and of which no line was refused has at most so many bytes, and no text has more records
/// than it may have lines.
pub fn texts_are_bounded()
    ensures bytes { (job : Job) (text : List ℕ) → (so_far job text).refusal ≡ None
        → length text ≤ MOST_RECORDS_BYTES + 2 * (MOST_LINE_BYTES + 2) }
    ensures records { (over : Bool) (job : Job) (text : List ℕ)
        → length (told over job text).records ≤ MOST_LINES }
{}
