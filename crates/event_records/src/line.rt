//! What one line of records says.
ghost use Rattle.std.specs.Prelude.{◌≡◌, ◌==◌, ◌+◌, ◌<◌, ◌≤◌, ◌∷◌, true, not, length, count_by, IfOk};
ghost use Rattle.std.specs.List.{list_all};
ghost use Rattle.hive_model.specs.Same.{texts};
ghost use Rattle.text_model.specs.Cells.{cells_of};
ghost use Rattle.text_model.specs.Lines.{content, is_printable};
ghost use Rattle.text_model.specs.Records.{event_of, line_of, line_with, record_of};
ghost use Rattle.text_model.specs.declared.bytes.TheConstants.{QUOTE};
ghost use Rattle.event_records.specs.Cutting.{HasRoom};
ghost use Rattle.event_records.specs.Gives.{Gives};
ghost use Rattle.event_records.specs.Held.{held_of};

use crate::cells::{cells_in, plain_cells, read_row};
use crate::header::is_header;
use crate::numeral::unsigned_of;
use crate::products::read_products;
use crate::stop::Stop;
use hive_model::{EventRecord, Many, Raw};
use std::alloc::Global;
use text_model::bytes::{CARRIAGE_RETURN, QUOTE, SPACE};
use text_model::{Line, MOST_LINE_BYTES, MOST_LINES, MOST_RECORDS_BYTES, Progress, RecordCause};

/// What a line says after those before it, where at most so many records are read.
#[tactic(auto, unfolding(text_model::specs::Records::line_of))]
pub(crate) fn read_line(
    alloc: Global,
    raws: &[Raw],
    most: u32,
    before: Progress,
    line: &[u8],
) -> Result<Line, Stop>
    ensures said { Gives (λ it. it) result (line_of raws.now most before line.now) }
    ensures low { IfOk result (λ _. HasRoom before (length line.now)) }
{
    if before.lines >= MOST_LINES {
        return Err(Stop::Refused(RecordCause::TooManyLines));
    }
    if before.bytes >= MOST_RECORDS_BYTES as u64 {
        return Err(Stop::Refused(RecordCause::TooMuch));
    }
    let held = content(line);
    if held.len() > MOST_LINE_BYTES {
        return Err(Stop::Refused(RecordCause::LineTooLong));
    }
    Ok(read_held(alloc, raws, most, before, held)?)
}

// What a line says that isn't too long, by what it holds.
#[tactic(auto, unfolding(text_model::specs::Lines::is_text))]
fn read_held(
    alloc: Global,
    raws: &[Raw],
    most: u32,
    before: Progress,
    held: &[u8],
) -> Result<Line, Stop>
    ensures { Gives (λ it. it) result (held_of raws.now most before held.now) }
{
    let quotes = count_quotes(held);
    if quotes % 2 != 0 || !are_printable(held) {
        return Err(Stop::Refused(RecordCause::Text));
    }
    if held.is_empty() {
        return Ok(Line::Blank);
    }
    if quotes == 0 {
        Ok(read_plain(alloc, raws, most, before, held)?)
    } else {
        Ok(read_quoted(alloc, raws, most, before, held)?)
    }
}

// The line without the carriage return of its end.
#[tactic(auto, unfolding(text_model::specs::Lines::content))]
fn content(line: &[u8]) -> &[u8]
    ensures content { result.now ≡ content line.now }
    ensures one_less { length line.now ≤ length result.now + 1 }
{
    if line.ends_with(&[CARRIAGE_RETURN]) {
        let (held, _) = line.split_at(line.len() - 1);
        held
    } else {
        line
    }
}

fn count_quotes(held: &[u8]) -> usize
    ensures { result ≡ count_by (λ b. b == QUOTE) held.now }
{
    held.iter().filter(|b| **b == QUOTE).count()
}

fn are_printable(held: &[u8]) -> bool
    ensures { result ≡ list_all is_printable held.now }
{
    count_others(held) == 0
}

// How many bytes aren't printable. A loop that looks at all of them takes many at once, and one that may stop early
// takes them one by one.
fn count_others(held: &[u8]) -> usize
    ensures { result ≡ count_by (λ b. not (is_printable b)) held.now }
{
    held.iter()
        .filter(|b| !(**b == SPACE || b.is_ascii_graphic()))
        .count()
}

fn read_plain(
    alloc: Global,
    raws: &[Raw],
    most: u32,
    before: Progress,
    held: &[u8],
) -> Result<Line, Stop>
    requires text { list_all is_printable held.now ≡ true }
    requires plain { count_by (λ b. b == QUOTE) held.now ≡ 0 }
    requires some { 0 < length held.now }
    ensures { Gives (λ it. it) result (line_with raws.now most before (cells_of held.now)) }
{
    let cells = plain_cells(alloc, held)?;
    Ok(read_cells(alloc, raws, most, before, cells.as_slice())?)
}

fn read_quoted(
    alloc: Global,
    raws: &[Raw],
    most: u32,
    before: Progress,
    held: &[u8],
) -> Result<Line, Stop>
    requires { list_all is_printable held.now ≡ true }
    ensures { Gives (λ it. it) result (line_with raws.now most before (cells_of held.now)) }
{
    let row = read_row(alloc, held)?;
    let cells = cells_in(alloc, &row)?;
    Ok(read_cells(alloc, raws, most, before, cells.as_slice())?)
}

fn read_cells(
    alloc: Global,
    raws: &[Raw],
    most: u32,
    before: Progress,
    cells: &[&[u8]],
) -> Result<Line, Stop>
    ensures { Gives (λ it. it) result (line_with raws.now most before (texts cells.now)) }
{
    if before.header {
        return Ok(read_record(alloc, raws, most, before.events, cells)?);
    }
    if is_header(raws, cells) {
        Ok(Line::Header)
    } else {
        Err(Stop::Refused(RecordCause::Header))
    }
}

#[tactic(auto, unfolding(text_model::specs::Records::record_of))]
fn read_record(
    alloc: Global,
    raws: &[Raw],
    most: u32,
    events: u32,
    cells: &[&[u8]],
) -> Result<Line, Stop>
    ensures { Gives (λ it. it) result (record_of raws.now most events (texts cells.now)) }
{
    let Some((first, others)) = cells.split_first() else {
        return Err(Stop::Refused(RecordCause::Fields));
    };
    if others.len() != raws.len() {
        return Err(Stop::Refused(RecordCause::Fields));
    }
    if events >= most {
        return Err(Stop::Refused(RecordCause::TooManyEvents));
    }
    Ok(read_event(alloc, raws, first, others)?)
}

fn read_event(alloc: Global, raws: &[Raw], first: &[u8], others: &[&[u8]]) -> Result<Line, Stop>
    requires { length raws.now ≡ length others.now }
    ensures { Gives (λ it. it) result (event_of raws.now (first.now ∷ texts others.now)) }
{
    let Some(event) = unsigned_of(first) else {
        return Err(Stop::Refused(RecordCause::Event));
    };
    let products = read_products(alloc, raws, others)?;
    Ok(Line::Record(EventRecord {
        event,
        cells: Many::from_vec(products),
    }))
}
