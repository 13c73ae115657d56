//! The cells of a line, as `csv` reads them.
ghost use Rattle.std.specs.Prelude.{◌≡◌, ◌==◌, ◌<◌, true, [], length, count_by, IfOk, option_map};
ghost use Rattle.csv.specs.Machine.{next_record};
ghost use Rattle.csv.specs.Reading.{default_config, strip_bom};
ghost use Rattle.csv.specs.declared.parser.State.TheVariants as state;
ghost use Rattle.csv.specs.Records.{fields_of};
ghost use Rattle.hive_model.specs.Same.{texts};
ghost use Rattle.text_model.specs.Cells.{cells_of};
ghost use Rattle.std.specs.List.{list_all};
ghost use Rattle.text_model.specs.Lines.{is_printable};
ghost use Rattle.text_model.specs.declared.bytes.TheConstants.{QUOTE};

use crate::pieces::cut_at;
use csv::{ByteRecord, Error, ReaderBuilder};
use std::alloc::{AllocError, Global};
use text_model::bytes::COMMA;

/// The cells of a line without a quote: `csv` cuts it at its commas. The only error is running out of memory.
pub(crate) fn plain_cells(alloc: Global, content: &[u8]) -> Result<Vec<&[u8]>, AllocError>
    requires text { list_all is_printable content.now ≡ true }
    requires plain { count_by (λ b. b == QUOTE) content.now ≡ 0 }
    requires some { 0 < length content.now }
    ensures { IfOk result (λ cells. texts cells.items ≡ cells_of content.now) }
{
    Ok(cut_at(alloc, COMMA, content)?)
}

/// The row that `csv` reads from a line. The only error is running out of memory.
#[tactic(auto, unfolding(text_model::specs::Cells::cells_of))]
pub(crate) fn read_row(alloc: Global, content: &[u8]) -> Result<ByteRecord, AllocError>
    requires { list_all is_printable content.now ≡ true }
    ensures { IfOk result (λ row. fields_of row ≡ cells_of content.now) }
{
    match first_row(alloc, content) {
        Ok(Some(row)) => Ok(row),
        Ok(None) => Ok(ByteRecord::new(alloc)),
        // A slice is read without failure, and one row has no other whose length it would have to keep to.
        Err(_) => Err(AllocError),
    }
}

fn first_row(alloc: Global, content: &[u8]) -> Result<Option<ByteRecord>, Error>
    ensures { IfOk result (λ row. option_map fields_of row ≡ option_map (λ read. read.0)
        (next_record default_config state.StartRecord [] [] (strip_bom content.now))) }
{
    let mut reader = ReaderBuilder::new()
        .has_headers(false)
        .from_reader(alloc, content);
    let mut row = ByteRecord::new(alloc);
    if reader.read_byte_record(&mut row)? {
        Ok(Some(row))
    } else {
        Ok(None)
    }
}

/// The cells of a row.
pub(crate) fn cells_in(alloc: Global, row: &ByteRecord) -> Result<Vec<&[u8]>, AllocError>
    ensures { IfOk result (λ cells. texts cells.items ≡ fields_of row.now) }
{
    let mut cells = Vec::with_capacity(alloc, row.len())?;
    for index in 0..row.len() {
        match row.get(index) {
            Some(cell) => {
                cells.push(cell)?;
            }
            None => {}
        }
    }
    Ok(cells)
}
