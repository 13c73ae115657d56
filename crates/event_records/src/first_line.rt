//! The next line of a text, as far as its bytes are there.
ghost use Rattle.std.specs.Prelude.{◌≡◌, ◌≤◌, ◌<◌, true, false, [], length, take, drop, IfNone, IfSome};
ghost use Rattle.text_model.specs.Lines.{is_last_line, lines};
ghost use Rattle.text_model.specs.declared.bytes.TheConstants.{LINE_FEED};
ghost use Rattle.event_records.specs.Cutting.{HasNo, Heads};

use memchr::memchr;
use text_model::MOST_LINE_BYTES;
use text_model::bytes::LINE_FEED;

/// A line at the front of some bytes.
#[derive(Clone, Copy, Debug)]
pub(crate) struct Found {
    /// Its length.
    pub(crate) line: usize,
    /// The same with its line end.
    pub(crate) taken: usize,
}

/// The first line of these bytes, if it can be read yet. The first `searched` of them hold no line feed, and
/// aren't looked at again.
pub(crate) fn first_line(ended: bool, searched: usize, bytes: &[u8]) -> Option<Found>
    requires within { searched ≤ length bytes.now }
    requires none { HasNo LINE_FEED (take searched bytes.now) }
    ensures heads { IfSome result (λ it. Heads ended bytes.now (take it.line bytes.now) (drop it.taken bytes.now)) }
    ensures line { IfSome result (λ it. it.line ≤ it.taken) }
    ensures taken { IfSome result (λ it. (0 < it.taken) × (it.taken ≤ length bytes.now)) }
    ensures all_taken { IfNone result (lines ended bytes.now ≡ []) }
    ensures no_feed { IfNone result (HasNo LINE_FEED bytes.now) }
{
    let (_, unseen) = bytes.split_at(searched);
    match memchr(LINE_FEED, unseen) {
        Some(index) => Some(Found {
            line: searched + index,
            taken: searched + index + 1,
        }),
        None => last_line(ended, bytes),
    }
}

// What stands behind the last line feed, if it is a line.
fn last_line(ended: bool, bytes: &[u8]) -> Option<Found>
    requires none { HasNo LINE_FEED bytes.now }
    ensures heads { IfSome result (λ it. Heads ended bytes.now (take it.line bytes.now) (drop it.taken bytes.now)) }
    ensures line { IfSome result (λ it. it.line ≤ it.taken) }
    ensures taken { IfSome result (λ it. (0 < it.taken) × (it.taken ≤ length bytes.now)) }
    ensures all_taken { IfNone result (lines ended bytes.now ≡ []) }
    ensures no_feed { IfNone result (HasNo LINE_FEED bytes.now) }
{
    let length = bytes.len();
    if is_last_line(ended, bytes) {
        Some(Found {
            line: length,
            taken: length,
        })
    } else {
        None
    }
}

// Whether these bytes behind the last line feed are a line: at the end of a text, where there are any; before it,
// where they are more than any line has.
fn is_last_line(ended: bool, rest: &[u8]) -> bool
    ensures last { result ≡ is_last_line ended rest.now }
    ensures some { result ≡ true → 0 < length rest.now }
{
    if ended {
        !rest.is_empty()
    } else {
        rest.len() > MOST_LINE_BYTES + 1
    }
}
