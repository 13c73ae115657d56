//! Entries as lines.
ghost use Rattle.std.specs.Prelude.{◌≡◌, ◌++◌, ◌∷◌, [], codes, decimal, IfOk, OnOk, OnErr};
ghost use Rattle.hive_model.specs.declared.outcome.Place.TheVariants.{Filter};
ghost use Rattle.text_model.specs.Report.{fault_word, line};
ghost use Rattle.text_model.specs.Timeline.{clone_word, entry_text, outcome_words, place_number, timeline};
ghost use Rattle.timeline.specs.Begins.{Begins};

use hive_model::{Entry, Fault, Outcome, Place};
use itoa::Buffer;
use std::alloc::{AllocError, Global};

/// The text of the entries, a line each, in their order (docs/FORMATS.md, "Timeline"). The only error is
/// running out of memory.
#[tactic(auto, unfolding(text_model::specs::Timeline::timeline))]
pub fn print(alloc: Global, entries: &[Entry]) -> Result<Vec<u8>, AllocError>
    ensures { IfOk result (λ text. text.items ≡ timeline entries.now) }
{
    let mut text = Vec::new(alloc);
    for entry in entries {
        print_entry(entry, &mut text)?;
    }
    Ok(text)
}

/// Appends the line of one entry. The only error is running out of memory, and then `out` is as before.
pub fn print_entry(entry: &Entry, out: &mut Vec<u8>) -> Result<(), AllocError>
    ensures ok { OnOk result (out.new.items ≡ out.old.items ++ entry_text entry.now) }
    ensures err { OnErr result (out.new.items ≡ out.old.items) }
{
    let before = out.len();
    match push_entry(out, *entry) {
        Ok(()) => Ok(()),
        Err(error) => {
            out.truncate(before);
            Err(error)
        }
    }
}

#[tactic(auto, unfolding(text_model::specs::Timeline::entry_text))]
fn push_entry(out: &mut Vec<u8>, entry: Entry) -> Result<(), AllocError>
    ensures ok { OnOk result (out.new.items ≡ out.old.items ++ entry_text entry) }
    ensures front { OnErr result (Begins out.old.items out.new.items) }
{
    match entry {
        Entry::Admit { slot, place } => {
            let (mut first, mut second) = (Buffer::new(), Buffer::new());
            push_three(
                out,
                b"admit",
                first.format(slot).as_bytes(),
                second.format(place).as_bytes(),
            )
        }
        Entry::Claim {
            slot,
            algorithm,
            clone,
            worker,
        } => push_claim(out, slot, algorithm, clone, worker),
        Entry::Done { ticket, outcome } => push_done(out, ticket, outcome),
        Entry::Back { ticket } => push_numbered(out, b"back", ticket),
        Entry::Retire { slot } => push_numbered(out, b"retire", u64::from(slot)),
        Entry::Last => push_one(out, b"last"),
    }
}

fn push_claim(
    out: &mut Vec<u8>,
    slot: u8,
    algorithm: u16,
    clone: Option<u8>,
    worker: u8,
) -> Result<(), AllocError>
    ensures ok { OnOk result (out.new.items ≡ out.old.items
        ++ line (codes "claim" ∷ decimal slot ∷ decimal algorithm ∷ clone_word clone ∷ decimal worker ∷ [])) }
    ensures front { OnErr result (Begins out.old.items out.new.items) }
{
    let (mut first, mut second) = (Buffer::new(), Buffer::new());
    let (mut third, mut fourth) = (Buffer::new(), Buffer::new());
    push_five(
        out,
        b"claim",
        first.format(slot).as_bytes(),
        second.format(algorithm).as_bytes(),
        clone_text(clone, &mut third),
        fourth.format(worker).as_bytes(),
    )
}

fn push_done(out: &mut Vec<u8>, ticket: u64, outcome: Outcome) -> Result<(), AllocError>
    ensures ok { OnOk result (out.new.items ≡ out.old.items
        ++ line (codes "done" ∷ decimal ticket ∷ outcome_words outcome)) }
    ensures front { OnErr result (Begins out.old.items out.new.items) }
{
    let (mut first, mut second) = (Buffer::new(), Buffer::new());
    let number = first.format(ticket).as_bytes();
    match outcome {
        Outcome::Accepted => push_three(out, b"done", number, b"accepted"),
        Outcome::Rejected => push_three(out, b"done", number, b"rejected"),
        Outcome::Failed(place, fault) => push_five(
            out,
            b"done",
            number,
            b"failed",
            place_text(place, &mut second),
            fault_text(fault),
        ),
    }
}

fn push_numbered(out: &mut Vec<u8>, word: &[u8], number: u64) -> Result<(), AllocError>
    ensures ok { OnOk result (out.new.items ≡ out.old.items ++ line (word.now ∷ decimal number ∷ [])) }
    ensures front { OnErr result (Begins out.old.items out.new.items) }
{
    let mut buffer = Buffer::new();
    push_two(out, word, buffer.format(number).as_bytes())
}

fn clone_text(clone: Option<u8>, buffer: &mut Buffer) -> &[u8]
    ensures { result.now ≡ clone_word clone }
{
    match clone {
        Some(number) => buffer.format(number).as_bytes(),
        None => b"-",
    }
}

fn place_text(place: Place, buffer: &mut Buffer) -> &[u8]
    ensures { result.now ≡ place_number place }
{
    match place {
        Place::Output(number) => buffer.format(number).as_bytes(),
        Place::Filter => b"-",
    }
}

fn fault_text(fault: Fault) -> &'static [u8]
    ensures { result.now ≡ fault_word fault }
{
    match fault {
        Fault::Overflow => b"overflow",
        Fault::DivZero => b"divzero",
        Fault::Empty => b"empty",
        Fault::Index => b"index",
        Fault::TooLong => b"toolong",
    }
}

fn push_one(out: &mut Vec<u8>, word: &[u8]) -> Result<(), AllocError>
    ensures ok { OnOk result (out.new.items ≡ out.old.items ++ line (word.now ∷ [])) }
    ensures front { OnErr result (Begins out.old.items out.new.items) }
{
    out.extend_from_slice(word)?;
    out.push(b'\n')?;
    Ok(())
}

fn push_spaced(out: &mut Vec<u8>, word: &[u8]) -> Result<(), AllocError>
    ensures ok { OnOk result (out.new.items ≡ out.old.items ++ (word.now ++ codes " ")) }
    ensures front { OnErr result (Begins out.old.items out.new.items) }
{
    out.extend_from_slice(word)?;
    out.push(b' ')?;
    Ok(())
}

fn push_two(out: &mut Vec<u8>, word: &[u8], first: &[u8]) -> Result<(), AllocError>
    ensures ok { OnOk result (out.new.items ≡ out.old.items ++ line (word.now ∷ first.now ∷ [])) }
    ensures front { OnErr result (Begins out.old.items out.new.items) }
{
    push_spaced(out, word)?;
    push_one(out, first)
}

fn push_three(out: &mut Vec<u8>, word: &[u8], first: &[u8], second: &[u8]) -> Result<(), AllocError>
    ensures ok { OnOk result (out.new.items ≡ out.old.items
        ++ line (word.now ∷ first.now ∷ second.now ∷ [])) }
    ensures front { OnErr result (Begins out.old.items out.new.items) }
{
    push_spaced(out, word)?;
    push_two(out, first, second)
}

fn push_five(
    out: &mut Vec<u8>,
    word: &[u8],
    first: &[u8],
    second: &[u8],
    third: &[u8],
    fourth: &[u8],
) -> Result<(), AllocError>
    ensures ok { OnOk result (out.new.items ≡ out.old.items
        ++ line (word.now ∷ first.now ∷ second.now ∷ third.now ∷ fourth.now ∷ [])) }
    ensures front { OnErr result (Begins out.old.items out.new.items) }
{
    push_spaced(out, word)?;
    push_spaced(out, first)?;
    push_three(out, second, third, fourth)
}
