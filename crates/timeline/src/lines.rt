//! The entry of a line.
ghost use Rattle.std.specs.Prelude.{◌≡◌, [], ◌∷◌};
ghost use Rattle.text_model.specs.Pieces.{cut};
ghost use Rattle.text_model.specs.TimelineRead.{admit_of, back_of, claim_of, done_of, entry_of, last_of, outcome_of, retire_of};
ghost use Rattle.text_model.specs.declared.bytes.TheConstants.{SPACE};

use crate::fields::Fields;
use crate::values::{byte_of, clone_of, fault_of, long_of, place_of, same, short_of};
use hive_model::{Entry, Outcome};
use text_model::TimelineCause;

/// The entry that a line says, without its line feed.
#[tactic(auto, unfolding(text_model::specs::TimelineRead::entry_of))]
pub(crate) fn read_entry(line: &[u8]) -> Result<Entry, TimelineCause>
    ensures { result ≡ entry_of (cut SPACE line.now) }
{
    let mut fields = Fields::of(line);
    let Some(word) = fields.next() else {
        return Err(TimelineCause::Word);
    };
    read_after(word, &mut fields)
}

// The entry of a word and the fields behind it.
#[tactic(auto, unfolding(text_model::specs::TimelineRead::entry_of))]
fn read_after(word: &[u8], fields: &mut Fields) -> Result<Entry, TimelineCause>
    ensures { result ≡ entry_of (word.now ∷ fields.old) }
{
    if same(b"admit", word) {
        read_admit(fields)
    } else if same(b"claim", word) {
        read_claim(fields)
    } else if same(b"done", word) {
        read_done(fields)
    } else if same(b"back", word) {
        read_back(fields)
    } else if same(b"retire", word) {
        read_retire(fields)
    } else if same(b"last", word) {
        read_last(fields)
    } else {
        Err(TimelineCause::Word)
    }
}

#[tactic(auto, unfolding(text_model::specs::TimelineRead::admit_of), using(crate::proofs::Few::admit_few))]
fn read_admit(fields: &mut Fields) -> Result<Entry, TimelineCause>
    ensures { result ≡ admit_of fields.old }
{
    let Some((slot, place)) = fields.two() else {
        return Err(TimelineCause::Fields);
    };
    let slot = byte_of(slot)?;
    let place = long_of(place)?;
    Ok(Entry::Admit { slot, place })
}

#[tactic(auto, unfolding(text_model::specs::TimelineRead::claim_of), using(crate::proofs::Few::claim_few))]
fn read_claim(fields: &mut Fields) -> Result<Entry, TimelineCause>
    ensures { result ≡ claim_of fields.old }
{
    let Some((slot, algorithm, clone, worker)) = fields.four() else {
        return Err(TimelineCause::Fields);
    };
    let slot = byte_of(slot)?;
    let algorithm = short_of(algorithm)?;
    let clone = clone_of(clone)?;
    let worker = byte_of(worker)?;
    Ok(Entry::Claim {
        slot,
        algorithm,
        clone,
        worker,
    })
}

// The outcome is looked at before the ticket, since its words are fields of their own.
#[tactic(auto, unfolding(text_model::specs::TimelineRead::done_of))]
fn read_done(fields: &mut Fields) -> Result<Entry, TimelineCause>
    ensures { result ≡ done_of fields.old }
{
    let Some(ticket) = fields.next() else {
        return Err(TimelineCause::Fields);
    };
    let outcome = read_outcome(fields)?;
    let ticket = long_of(ticket)?;
    Ok(Entry::Done { ticket, outcome })
}

#[tactic(auto, unfolding(text_model::specs::TimelineRead::back_of), using(crate::proofs::Few::back_few))]
fn read_back(fields: &mut Fields) -> Result<Entry, TimelineCause>
    ensures { result ≡ back_of fields.old }
{
    let Some(ticket) = fields.one() else {
        return Err(TimelineCause::Fields);
    };
    let ticket = long_of(ticket)?;
    Ok(Entry::Back { ticket })
}

#[tactic(auto, unfolding(text_model::specs::TimelineRead::retire_of), using(crate::proofs::Few::retire_few))]
fn read_retire(fields: &mut Fields) -> Result<Entry, TimelineCause>
    ensures { result ≡ retire_of fields.old }
{
    let Some(slot) = fields.one() else {
        return Err(TimelineCause::Fields);
    };
    let slot = byte_of(slot)?;
    Ok(Entry::Retire { slot })
}

#[tactic(auto, unfolding(text_model::specs::TimelineRead::last_of), using(crate::proofs::Few::last_more))]
fn read_last(fields: &mut Fields) -> Result<Entry, TimelineCause>
    ensures { result ≡ last_of fields.old }
{
    if fields.is_empty() {
        Ok(Entry::Last)
    } else {
        Err(TimelineCause::Fields)
    }
}

// The outcome of the fields behind a ticket.
#[tactic(auto, unfolding(text_model::specs::TimelineRead::outcome_of), using(crate::proofs::Few::outcome_few))]
fn read_outcome(fields: &mut Fields) -> Result<Outcome, TimelineCause>
    ensures { result ≡ outcome_of fields.old }
{
    let Some(word) = fields.next() else {
        return Err(TimelineCause::Fields);
    };
    if fields.is_empty() {
        return read_end(word);
    }
    match fields.two() {
        Some((place, fault)) => read_failure(word, place, fault),
        None => Err(TimelineCause::Fields),
    }
}

#[tactic(auto, unfolding(text_model::specs::TimelineRead::outcome_of))]
fn read_end(word: &[u8]) -> Result<Outcome, TimelineCause>
    ensures { result ≡ outcome_of (word.now ∷ []) }
{
    if same(word, b"accepted") {
        Ok(Outcome::Accepted)
    } else if same(word, b"rejected") {
        Ok(Outcome::Rejected)
    } else {
        Err(TimelineCause::Fields)
    }
}

#[tactic(auto, unfolding(text_model::specs::TimelineRead::outcome_of))]
fn read_failure(word: &[u8], place: &[u8], fault: &[u8]) -> Result<Outcome, TimelineCause>
    ensures { result ≡ outcome_of (word.now ∷ place.now ∷ fault.now ∷ []) }
{
    if !same(word, b"failed") {
        return Err(TimelineCause::Fields);
    }
    let fault = fault_of(fault)?;
    let place = place_of(place)?;
    Ok(Outcome::Failed(place, fault))
}
