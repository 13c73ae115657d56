//! What some texts mean, worked out by hand. Each of these functions does nothing: its contract says
//! what the definitions make of a text.
ghost use Rattle.std.specs.Prelude.{codes, ◌≡◌, ◌++◌, ◌∷◌, [], true, false, None, Some, Ok, Err, replicate};
ghost use Rattle.text_model.specs.Cells.{cells_of};
ghost use Rattle.text_model.specs.Examples.{behind, data_cycle_text, early_or_text, entries, entries_text, first_record, first_report, first_result, list, output_before_filter_text, read, record_with, refused, second_record, second_version_text, sum_and_cut, sum_and_cut_text, with_filter};
ghost use Rattle.text_model.specs.Jobs.{job_of};
ghost use Rattle.text_model.specs.Language.{cut_language, first_language, whole_language};
ghost use Rattle.text_model.specs.Names.{is_name};
ghost use Rattle.text_model.specs.Numerals.{signed, unsigned};
ghost use Rattle.text_model.specs.Records.{line_of, records_of, so_far};
ghost use Rattle.text_model.specs.Stops.{stop_options};
ghost use Rattle.text_model.specs.Tables.{most_algorithms};
ghost use Rattle.text_model.specs.Timeline.{timeline};
ghost use Rattle.text_model.specs.TimelineRead.{entries_of};
ghost use Rattle.text_model.specs.Whole.{ReadToEnd, whole};
ghost use Rattle.text_model.specs.declared.cut_refusal.CutRefusal.TheVariants.{Input};
ghost use Rattle.text_model.specs.declared.expr_refusal.ExprRefusal.TheVariants.{UnknownName};
ghost use Rattle.text_model.specs.declared.graph_refusal.GraphRefusal.TheVariants.{DataCycle};
ghost use Rattle.text_model.specs.declared.job_refusal.JobRefusal.TheVariants.{Options, Graph, Expr, Tree, Cut};
ghost use Rattle.text_model.specs.declared.options_refusal.OptionsRefusal.TheVariants.{Toml, Missing, Field, Range, Unknown};
ghost use Rattle.text_model.specs.declared.record_refusal.RecordCause.TheVariants.{TooManyLines, TooMuch, Number, Header};
ghost use Rattle.text_model.specs.declared.line.Line.TheVariants.{Blank};
ghost use Rattle.text_model.specs.declared.timeline_refusal.TimelineCause.TheVariants as cause;
ghost use Rattle.text_model.specs.declared.timeline_refusal.TimelineRefusal.TheVariants.{Bad};
ghost use Rattle.text_model.specs.declared.tree_refusal.TreeRefusal.TheVariants.{UnknownTop};

/// The options of the job that adds up a list and cuts on the total.
pub fn sum_and_cut_is_read()
    ensures { job_of first_language sum_and_cut_text ≡ Ok sum_and_cut }
{}

/// Small options texts, and why they describe no job.
pub fn small_options_are_refused()
    ensures no_bytes { job_of first_language [] ≡ Err (Options (Missing (codes "top"))) }
    ensures unfinished { job_of first_language (codes "top = ") ≡ Err (Options Toml) }
    ensures number { job_of first_language (codes "top = 1") ≡ Err (Options (Field (codes "top"))) }
    ensures no_sequence { job_of first_language (codes "top = \"T\"")
        ≡ Err (Tree (UnknownTop (codes "T"))) }
    ensures key { job_of first_language (codes "tops = 1")
        ≡ Err (Options (Unknown (codes "options"))) }
{}

/// A third version is none, and the second one has `mode` in the place of `mode_or`.
pub fn versions_differ()
    ensures third { job_of whole_language (codes "version = 3\n" ++ sum_and_cut_text)
        ≡ Err (Options (Range (codes "version"))) }
    ensures second { job_of cut_language second_version_text
        ≡ Err (Options (Range (codes "version"))) }
    ensures same { job_of whole_language second_version_text ≡ Ok sum_and_cut }
    ensures mode { job_of whole_language (sum_and_cut_text ++ codes "mode = \"and\"\n")
        ≡ Err (Options (Unknown (codes "sequence.1"))) }
    ensures mode_or { job_of whole_language (second_version_text ++ codes "mode_or = true\n")
        ≡ Err (Options (Unknown (codes "sequence.1"))) }
{}

/// The tables of `output` are visited in their place among the keys, one after another.
pub fn outputs_are_visited_in_their_place()
    ensures { job_of first_language output_before_filter_text
        ≡ Err (Options (Missing (codes "algorithm.1.output.1.name"))) }
{}

/// A name has at most 64 bytes, and options of the first version have at most 256 algorithms.
pub fn options_have_limits()
    ensures name { is_name (replicate 64 97) ≡ true }
    ensures long_name { is_name (replicate 65 97) ≡ false }
    ensures first { most_algorithms 1 ≡ 256 }
    ensures second { most_algorithms 2 ≡ 1024 }
{}

/// Two algorithms that wait for one another, and a filter that names no handle, with its stop line.
pub fn a_cycle_and_an_unknown_name_are_refused()
    ensures cycle { job_of first_language data_cycle_text ≡ Err (Graph (DataCycle (codes "A"))) }
    ensures name { job_of first_language (with_filter (codes "totl > 5"))
        ≡ Err (Expr (codes "algorithm.2.filter") (UnknownName 0)) }
    ensures line { stop_options (Expr (codes "algorithm.2.filter") (UnknownName 0))
        ≡ codes "stop options Expr algorithm.2.filter UnknownName 0\n" }
{}

/// What is produced below a sequence with `cut` is taken only below it.
pub fn what_is_cut_off_is_taken_below()
    ensures cut { job_of whole_language early_or_text
        ≡ Err (Cut (Input (codes "Use") (codes "p"))) }
    ensures unknown { job_of first_language early_or_text
        ≡ Err (Options (Unknown (codes "sequence.2"))) }
{}

/// Records, up to the first refused line.
pub fn records_are_read()
    ensures stopped { records_of sum_and_cut (codes "event,hits,run\n1,3 4,9\n2,1 2,9\n3,x,9\n")
        ≡ refused (first_record ∷ second_record ∷ []) 4 Number }
    ensures absent { records_of sum_and_cut (codes "event,hits,run\n3,?,9\n4,,9\n")
        ≡ read (record_with 3 None ∷ record_with 4 (list []) ∷ []) }
    ensures quoted { records_of sum_and_cut
        (codes "event,hits,run\r\n\r\n\"1\",\"3 4\",\"09\"\r\n")
        ≡ read (first_record ∷ []) }
    ensures empty { records_of sum_and_cut [] ≡ refused [] 1 Header }
{}

/// A records text has at most 200,000 lines, and no line begins behind byte 67,108,864.
pub fn lines_have_limits()
    ensures last { line_of sum_and_cut.raws 1 (behind 199999 0) [] ≡ Ok Blank }
    ensures further { line_of sum_and_cut.raws 1 (behind 200000 67108864) [] ≡ Err TooManyLines }
    ensures near { line_of sum_and_cut.raws 1 (behind 1 67108863) [] ≡ Ok Blank }
    ensures far { line_of sum_and_cut.raws 1 (behind 1 67108864) [] ≡ Err TooMuch }
{}

/// A text that may go on says nothing of the line that it ends in.
pub fn an_open_line_says_nothing()
    ensures open { so_far sum_and_cut (codes "event,hits,run\n1,3 4,9\n2,x")
        ≡ read (first_record ∷ []) }
    ensures none { so_far sum_and_cut [] ≡ read [] }
{}

/// A quote that stands open at the end of a line ends there.
pub fn an_open_quote_ends_with_its_line()
    ensures { cells_of (codes "a\"b,\"c") ≡ codes "a\"b" ∷ codes "c" ∷ [] }
{}

/// Numerals may have leading zeros, and end at 64 bits.
pub fn numerals_end_at_64_bits()
    ensures greatest { unsigned (codes "018446744073709551615") ≡ Some 18446744073709551615 }
    ensures above { unsigned (codes "18446744073709551616") ≡ None }
    ensures least { signed (codes "-9223372036854775809") ≡ None }
    ensures plus { signed (codes "+1") ≡ None }
{}

/// The report of one result, and the line that counts the results.
pub fn a_whole_text_is_written()
    ensures long { whole sum_and_cut (first_result ∷ []) ReadToEnd false
        ≡ first_report ++ codes "done 1 ok 1 failed 0 stalled 0\n" }
    ensures brief { whole sum_and_cut (first_result ∷ []) ReadToEnd true
        ≡ codes "done 1 ok 1 failed 0 stalled 0\n" }
{}

/// A journal's text, and why other texts are none.
pub fn a_timeline_is_written_and_read()
    ensures written { timeline entries ≡ entries_text }
    ensures read { entries_of entries_text ≡ Ok entries }
    ensures few { entries_of (codes "admit 0\n") ≡ Err (Bad 1 cause.Fields) }
    ensures zero { entries_of (codes "admit 0 01\n") ≡ Err (Bad 1 cause.Number) }
    ensures open { entries_of (codes "last") ≡ Err (Bad 1 cause.NoEnd) }
{}
