//! Whether a record fits a job.
ghost use Rattle.std.specs.Prelude.{◌≡◌, true, MatchOption};
ghost use Rattle.hive_model.specs.Fits.{AreCellsOf, Fits, IsOfKind};

use hive_model::{EventRecord, Job, Kind, Product, Raw};

/// Whether the record has a cell for each raw handle, absent or of the handle's kind.
pub(crate) fn fits(job: &Job, event: &EventRecord) -> bool
    ensures { result ≡ true → Fits job.now event.now }
{
    are_cells_of(job.raws(), event.cells())
}

fn are_cells_of(raws: &[Raw], cells: &[Option<Product>]) -> bool
    ensures { result ≡ true → AreCellsOf raws.now cells.now }
{
    if raws.len() != cells.len() {
        return false;
    }
    for (index, raw) in raws.iter().enumerate() {
        if !is_cell_of(raw.kind, &cells[index]) {
            return false;
        }
    }
    true
}

fn is_cell_of(kind: Kind, cell: &Option<Product>) -> bool
    ensures { result ≡ true → MatchOption cell.now (Unit {0}) (IsOfKind kind) }
{
    match cell {
        Some(product) => is_of_kind(kind, product),
        None => true,
    }
}

fn is_of_kind(kind: Kind, product: &Product) -> bool
    ensures { result ≡ true → IsOfKind kind product.now }
{
    match (kind, product) {
        (Kind::Num, Product::Num(_)) => true,
        (Kind::List, Product::List(_)) => true,
        (Kind::Num, Product::List(_)) => false,
        (Kind::List, Product::Num(_)) => false,
    }
}
