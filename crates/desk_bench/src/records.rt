//! Records of a job, the same each time.
ghost use Rattle.std.specs.Prelude.{IfOk};
ghost use Rattle.desk_bench.specs.Waiting.{AreFitting};
ghost use Rattle.hive_model.specs.Fits.{Fits, IsOfKind};

use hive_model::{EventRecord, Ints, Job, Kind, Many, Product};
use std::alloc::{AllocError, Global};

/// So many records.
pub(crate) fn records(alloc: Global, job: &Job, count: u64) -> Result<Vec<EventRecord>, AllocError>
    ensures { IfOk result (λ it. AreFitting job.now it.items) }
{
    let mut records = Vec::new(alloc);
    for number in 0..count {
        records.push(record(alloc, job, number)?)?;
    }
    Ok(records)
}

fn record(alloc: Global, job: &Job, event: u64) -> Result<EventRecord, AllocError>
    ensures { IfOk result (Fits job.now) }
{
    let mut cells = Vec::new(alloc);
    for raw in job.raws() {
        cells.push(Some(product(alloc, raw.kind, event)?))?;
    }
    Ok(EventRecord {
        event,
        cells: Many::from_vec(cells),
    })
}

// A number, or a list of three.
fn product(alloc: Global, kind: Kind, event: u64) -> Result<Product, AllocError>
    ensures { IfOk result (IsOfKind kind) }
{
    let number = (event % 97) as i64;
    match kind {
        Kind::Num => Ok(Product::Num(number)),
        Kind::List => {
            let numbers = [number, 40, number / 2];
            Ok(Product::List(Ints::from_slice(alloc, &numbers)?))
        }
    }
}
