//! Reading and printing undo each other, as the contracts of functions that do nothing.
ghost use Rattle.std.specs.Prelude.{◌≡◌, ℕ, List, Ok};
ghost use Rattle.std.specs.List.{AllByRecursion};
ghost use Rattle.hive_model.specs.declared.entry.Entry.{Entry};
ghost use Rattle.text_model.specs.Timeline.{FitsFields, timeline};
ghost use Rattle.text_model.specs.TimelineRead.{entries_of};
ghost use Rattle.timeline.specs.Reads.{IsPrinted};

/// The texts that are read are exactly the timelines of entries whose fields fit their types, and what is
/// read are these entries (docs/FORMATS.md, "Timeline").
pub fn reading_undoes_printing()
    ensures read { (entries : List Entry) → AllByRecursion FitsFields entries
        → entries_of (timeline entries) ≡ Ok entries }
    ensures printed { (text : List ℕ) (entries : List Entry) → entries_of text ≡ Ok entries
        → IsPrinted text entries }
{}
