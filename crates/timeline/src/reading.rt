//! A text as a journal.
ghost use Rattle.std.specs.Prelude.{◌≡◌, ◌≢◌, List, IfOk, OnErr, OnOk, IfErr, ℕ, Ok};
ghost use Rattle.hive_model.specs.declared.entry.Entry.{Entry};
ghost use Rattle.text_model.specs.Timeline.{timeline};
ghost use Rattle.text_model.specs.TimelineRead.{entries_of};
ghost use Rattle.text_model.specs.declared.timeline_refusal.TimelineRefusal.TheVariants.{NoMemory};
ghost use Rattle.timeline.specs.Reads.{IsPrinted, Reads};

use crate::lines::read_entry;
use crate::pieces::first_piece;
use hive_model::{Entry, Many};
use std::alloc::Global;
use text_model::bytes::LINE_FEED;
use text_model::{TimelineCause, TimelineRefusal};

/// The entries that a text writes, if it is one that [`crate::print`] gives, byte by byte.
///
/// Each other text is refused: `Bad` tells its first bad line, by its number from 1, and the first cause
/// there, of NoEnd, Word, Fields and Number in this order (docs/FORMATS.md, "Timeline"). `NoMemory` says that
/// memory ran out.
pub fn parse(alloc: Global, bytes: &[u8]) -> Result<Many<Entry>, TimelineRefusal>
    ensures reads { Reads result (entries_of bytes.now) }
    ensures printed { IfOk result (λ entries. IsPrinted bytes.now entries.items) }
    ensures unprinted { IfErr result (λ refusal. refusal ≢ NoMemory
        → (entries : List Entry) → IsPrinted bytes.now entries → ⊥) }
{
    read_lines(alloc, bytes)
}

#[tactic(auto, unfolding(text_model::specs::TimelineRead::entries_of))]
fn read_lines(alloc: Global, bytes: &[u8]) -> Result<Many<Entry>, TimelineRefusal>
    ensures { Reads result (entries_of bytes.now) }
{
    let mut entries = Vec::new(alloc);
    let mut number: u64 = 1;
    let mut rest = bytes;
    while let Some((line, behind)) = first_piece(LINE_FEED, rest) {
        match read_entry(line) {
            Ok(entry) => entries.push(entry)?,
            Err(cause) => {
                return Err(TimelineRefusal::Bad {
                    line: number,
                    cause,
                });
            }
        }
        number += 1;
        rest = behind;
    }
    if rest.is_empty() {
        Ok(Many::from_vec(entries))
    } else {
        Err(TimelineRefusal::Bad {
            line: number,
            cause: TimelineCause::NoEnd,
        })
    }
}
