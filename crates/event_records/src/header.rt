//! The header of a records text.
ghost use Rattle.std.specs.Prelude.{codes, ◌≡◌, map};
ghost use Rattle.std.specs.Cmp.Lexicographic.{pointwise};
ghost use Rattle.hive_model.specs.Same.{same_text, texts};
ghost use Rattle.text_model.specs.Records.{header_cells};

use hive_model::Raw;

/// Whether the cells are `event` and the names of the raw handles in order.
pub(crate) fn is_header(raws: &[Raw], cells: &[&[u8]]) -> bool
    ensures { result ≡ pointwise same_text (header_cells raws.now) (texts cells.now) }
{
    let Some((first, others)) = cells.split_first() else {
        return false;
    };
    is_event(first) && are_names(raws, others)
}

fn is_event(cell: &[u8]) -> bool
    ensures { result ≡ same_text (codes "event") cell.now }
{
    b"event".as_slice() == cell
}

fn are_names(raws: &[Raw], cells: &[&[u8]]) -> bool
    ensures { result ≡ pointwise same_text (map (λ raw. raw.name) raws.now) (texts cells.now) }
{
    if raws.len() != cells.len() {
        return false;
    }
    for (index, raw) in raws.iter().enumerate() {
        if raw.name.as_str().as_bytes() != cells[index] {
            return false;
        }
    }
    true
}
