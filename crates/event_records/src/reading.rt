//! Reading lines until one of them gives a record, or none can be read.
ghost use Rattle.std.specs.Prelude.{◌≡◌, ◌≤◌, [], length, take, drop, Some, None, Ok};
ghost use Rattle.text_model.specs.Lines.{lines};
ghost use Rattle.text_model.specs.Records.{after_line};
ghost use Rattle.text_model.specs.declared.bytes.TheConstants.{LINE_FEED};
ghost use Rattle.event_records.specs.Cutting.{HasNo, HasRoom, IsLow, Reaches};

use crate::first_line::first_line;
use crate::line::read_line;
use crate::stop::Stop;
use hive_model::{EventRecord, Raw};
use std::alloc::Global;
use text_model::{Line, Progress};

/// Where reading has come.
#[derive(Drop)]
pub(crate) struct Reached {
    /// The record that was read last, `None` where no line is left, or why the next line gives nothing.
    pub(crate) found: Result<Option<EventRecord>, Stop>,
    /// How many bytes the lines before have.
    pub(crate) taken: usize,
    pub(crate) before: Progress,
}

/// Reads lines until one gives a record, or no line is left. The first `searched` bytes hold no line feed.
pub(crate) fn read_on(
    alloc: Global,
    raws: &[Raw],
    most: u32,
    ended: bool,
    before: Progress,
    searched: usize,
    pending: &[u8],
) -> Reached
    requires within { searched ≤ length pending.now }
    requires none { HasNo LINE_FEED (take searched pending.now) }
    requires low { IsLow before }
    ensures reaches { Reaches raws.now most ended pending.now before result.found result.before
        (drop result.taken pending.now) }
    ensures within { result.taken ≤ length pending.now }
    ensures no_feed { result.found ≡ Ok None → HasNo LINE_FEED (drop result.taken pending.now) }
    ensures low { IsLow result.before }
    ensures rests { lines ended pending.now ≡ []
        → (result.found ≡ Ok None) × (result.taken ≡ 0) × (result.before ≡ before) }
{
    let mut taken = 0;
    let mut place = before;
    let mut seen = searched;
    'lines: loop {
        let (_, rest) = pending.split_at(taken);
        let Some(found) = first_line(ended, seen, rest) else {
            return Reached {
                found: Ok(None),
                taken,
                before: place,
            };
        };
        let (line, _) = rest.split_at(found.line);
        let said = match read_line(alloc, raws, most, place, line) {
            Ok(said) => said,
            Err(stop) => {
                return Reached {
                    found: Err(stop),
                    taken,
                    before: place,
                };
            }
        };
        taken += found.taken;
        place = passed(place, line, &said);
        seen = 0;
        if let Line::Record(record) = said {
            return Reached {
                found: Ok(Some(record)),
                taken,
                before: place,
            };
        }
    }
}

// How far the lines lead with this one, which ends with one more byte.
#[tactic(auto, unfolding(text_model::specs::Records::after_line))]
fn passed(before: Progress, line: &[u8], said: &Line) -> Progress
    requires low { IsLow before }
    requires room { HasRoom before (length line.now) }
    ensures after { result ≡ after_line before line.now (Ok said.now) }
    ensures low { IsLow result }
{
    let (events, header) = match said {
        Line::Blank => (0, false),
        Line::Header => (0, true),
        Line::Record(_) => (1, false),
    };
    Progress {
        lines: before.lines + 1,
        bytes: before.bytes + line.len() as u64 + 1,
        events: before.events + events,
        header: before.header || header,
    }
}
