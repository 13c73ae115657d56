//! Stop lines as text (docs/FORMATS.md, "Stop lines").
ghost use Rattle.std.specs.Prelude.{◌≡◌, ◌++◌, ◌∷◌, [], decimal, OnOk};
ghost use Rattle.text_model.specs.Stops.{cause_word, cut_words, expr_words, graph_words, job_words, options_words, stop_options, stop_record, tree_words};
ghost use Rattle.report_text.specs.Spaced.{spaced};

use itoa::Buffer;
use std::alloc::AllocError;
use text_model::{
    CutRefusal, ExprRefusal, GraphRefusal, JobRefusal, OptionsRefusal, RecordCause, RecordRefusal,
    TreeRefusal,
};

/// Appends the stop line of a refused line of records. The only error is that memory ran out.
pub fn push_stop_record(out: &mut Vec<u8>, refusal: &RecordRefusal) -> Result<(), AllocError>
    ensures { OnOk result (out.new.items ≡ out.old.items ++ stop_record refusal.now) }
{
    let mut number = Buffer::new();
    out.extend_from_slice(b"stop record")?;
    push_two(
        out,
        number.format(refusal.line),
        word_of_cause(refusal.cause),
    )?;
    out.push(b'\n')?;
    Ok(())
}

/// Appends the stop line of a refused options text. The only error is that memory ran out.
pub fn push_stop_options(out: &mut Vec<u8>, refusal: &JobRefusal) -> Result<(), AllocError>
    ensures { OnOk result (out.new.items ≡ out.old.items ++ stop_options refusal.now) }
{
    out.extend_from_slice(b"stop options")?;
    push_job(out, refusal)?;
    out.push(b'\n')?;
    Ok(())
}

fn word_of_cause(cause: RecordCause) -> &'static str
    ensures { result.now ≡ cause_word cause }
{
    match cause {
        RecordCause::TooManyLines => "TooManyLines",
        RecordCause::TooMuch => "TooMuch",
        RecordCause::LineTooLong => "LineTooLong",
        RecordCause::Text => "Text",
        RecordCause::Header => "Header",
        RecordCause::Fields => "Fields",
        RecordCause::TooManyEvents => "TooManyEvents",
        RecordCause::Event => "Event",
        RecordCause::Length => "Length",
        RecordCause::Number => "Number",
    }
}

fn push_one(out: &mut Vec<u8>, word: &str) -> Result<(), AllocError>
    ensures { OnOk result (out.new.items ≡ out.old.items ++ spaced (word.now ∷ [])) }
{
    out.push(b' ')?;
    out.extend_from_slice(word.as_bytes())
}

fn push_two(out: &mut Vec<u8>, word: &str, field: &str) -> Result<(), AllocError>
    ensures { OnOk result (out.new.items ≡ out.old.items ++ spaced (word.now ∷ field.now ∷ [])) }
{
    push_one(out, word)?;
    push_one(out, field)
}

fn push_three(out: &mut Vec<u8>, word: &str, field: &str, other: &str) -> Result<(), AllocError>
    ensures { OnOk result (out.new.items ≡ out.old.items ++ spaced (word.now ∷ field.now ∷ other.now ∷ [])) }
{
    push_one(out, word)?;
    push_two(out, field, other)
}

// A word and a place in a text.
fn push_at(out: &mut Vec<u8>, word: &str, at: u32) -> Result<(), AllocError>
    ensures { OnOk result (out.new.items ≡ out.old.items ++ spaced (word.now ∷ decimal at ∷ [])) }
{
    let mut place = Buffer::new();
    push_two(out, word, place.format(at))
}

fn push_job(out: &mut Vec<u8>, refusal: &JobRefusal) -> Result<(), AllocError>
    ensures { OnOk result (out.new.items ≡ out.old.items ++ spaced (job_words refusal.now)) }
{
    match refusal {
        JobRefusal::Options(refusal) => push_options(out, refusal),
        JobRefusal::Repeat { path } => push_two(out, "Repeat", path.as_str()),
        JobRefusal::UnknownResource { path } => push_two(out, "UnknownResource", path.as_str()),
        JobRefusal::Graph(refusal) => push_graph(out, refusal),
        JobRefusal::Expr { path, cause } => {
            push_two(out, "Expr", path.as_str())?;
            push_expr(out, cause)
        }
        JobRefusal::Tree(refusal) => push_tree(out, refusal),
        JobRefusal::Cut(refusal) => push_cut(out, refusal),
        JobRefusal::NoMemory => Ok(()),
    }
}

fn push_options(out: &mut Vec<u8>, refusal: &OptionsRefusal) -> Result<(), AllocError>
    ensures { OnOk result (out.new.items ≡ out.old.items ++ spaced (options_words refusal.now)) }
{
    match refusal {
        OptionsRefusal::Toml => push_one(out, "Toml"),
        OptionsRefusal::Unknown { path } => push_two(out, "Unknown", path.as_str()),
        OptionsRefusal::Missing { path } => push_two(out, "Missing", path.as_str()),
        OptionsRefusal::Field { path } => push_two(out, "Field", path.as_str()),
        OptionsRefusal::Name { path } => push_two(out, "Name", path.as_str()),
        OptionsRefusal::Range { path } => push_two(out, "Range", path.as_str()),
        OptionsRefusal::NoMemory => Ok(()),
    }
}

fn push_graph(out: &mut Vec<u8>, refusal: &GraphRefusal) -> Result<(), AllocError>
    ensures { OnOk result (out.new.items ≡ out.old.items ++ spaced (graph_words refusal.now)) }
{
    match refusal {
        GraphRefusal::TwoProducers { handle } => push_two(out, "TwoProducers", handle.as_str()),
        GraphRefusal::NoProducer { algorithm, handle } => {
            push_three(out, "NoProducer", algorithm.as_str(), handle.as_str())
        }
        GraphRefusal::DataCycle { algorithm } => push_two(out, "DataCycle", algorithm.as_str()),
        GraphRefusal::NoMemory => Ok(()),
    }
}

fn push_expr(out: &mut Vec<u8>, refusal: &ExprRefusal) -> Result<(), AllocError>
    ensures { OnOk result (out.new.items ≡ out.old.items ++ spaced (expr_words refusal.now)) }
{
    match refusal {
        ExprRefusal::TooLong => push_one(out, "TooLong"),
        ExprRefusal::Unexpected { at } => push_at(out, "Unexpected", *at),
        ExprRefusal::Number { at } => push_at(out, "Number", *at),
        ExprRefusal::TooDeep { at } => push_at(out, "TooDeep", *at),
        ExprRefusal::UnknownName { at } => push_at(out, "UnknownName", *at),
        ExprRefusal::TooMany => push_one(out, "TooMany"),
        ExprRefusal::Kind { at } => push_at(out, "Kind", *at),
        ExprRefusal::NoMemory => Ok(()),
    }
}

fn push_tree(out: &mut Vec<u8>, refusal: &TreeRefusal) -> Result<(), AllocError>
    ensures { OnOk result (out.new.items ≡ out.old.items ++ spaced (tree_words refusal.now)) }
{
    match refusal {
        TreeRefusal::UnknownTop { name } => push_two(out, "UnknownTop", name.as_str()),
        TreeRefusal::UnknownMember { sequence, name } => {
            push_three(out, "UnknownMember", sequence.as_str(), name.as_str())
        }
        TreeRefusal::SharedSequence { sequence } => {
            push_two(out, "SharedSequence", sequence.as_str())
        }
        TreeRefusal::SequenceCycle { sequence } => {
            push_two(out, "SequenceCycle", sequence.as_str())
        }
        TreeRefusal::TopIsMember => push_one(out, "TopIsMember"),
        TreeRefusal::TooDeep { sequence } => push_two(out, "TooDeep", sequence.as_str()),
        TreeRefusal::TooManyLeaves => push_one(out, "TooManyLeaves"),
        TreeRefusal::NoMemory => Ok(()),
    }
}

fn push_cut(out: &mut Vec<u8>, refusal: &CutRefusal) -> Result<(), AllocError>
    ensures { OnOk result (out.new.items ≡ out.old.items ++ spaced (cut_words refusal.now)) }
{
    match refusal {
        CutRefusal::Kind { sequence } => push_two(out, "CutKind", sequence.as_str()),
        CutRefusal::Shared { algorithm } => push_two(out, "CutShared", algorithm.as_str()),
        CutRefusal::Input { algorithm, handle } => {
            push_three(out, "CutInput", algorithm.as_str(), handle.as_str())
        }
    }
}
