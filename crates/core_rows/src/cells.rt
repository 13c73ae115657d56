//! Records that are drawn by lot.
use crate::numbers::Numbers;
use hive_model::{EventRecord, Ints, Job, Kind, MOST_NUMBERS, Many, Product};
use std::alloc::{AllocError, Global};

/// So many records of a job, the last one first.
pub(crate) fn records(
    alloc: Global,
    numbers: &mut Numbers,
    job: &Job,
    count: u64,
) -> Result<Vec<EventRecord>, AllocError> {
    let mut records = Vec::new(alloc);
    for number in 0..count {
        records.push(record(alloc, numbers, job, number)?)?;
    }
    Ok(records)
}

fn record(
    alloc: Global,
    numbers: &mut Numbers,
    job: &Job,
    event: u64,
) -> Result<EventRecord, AllocError> {
    let mut cells = Vec::new(alloc);
    for raw in job.raws() {
        cells.push(cell(alloc, numbers, raw.kind)?)?;
    }
    Ok(EventRecord {
        event,
        cells: Many::from_vec(cells),
    })
}

// One of fifteen cells is absent.
fn cell(alloc: Global, numbers: &mut Numbers, kind: Kind) -> Result<Option<Product>, AllocError> {
    if numbers.one_of(15) {
        return Ok(None);
    }
    match kind {
        Kind::Num => Ok(Some(Product::Num(number(numbers)))),
        Kind::List => Ok(Some(Product::List(list(alloc, numbers)?))),
    }
}

// A small number, and now and then the greatest.
fn number(numbers: &mut Numbers) -> i64 {
    if numbers.one_of(20) {
        return i64::MAX;
    }
    i64::try_from(numbers.below(12))
        .unwrap_or(0)
        .saturating_sub(4)
}

fn list(alloc: Global, numbers: &mut Numbers) -> Result<Ints, AllocError> {
    let mut items = Vec::new(alloc);
    let count = numbers.below(4);
    for _item in 0..count {
        items.push(number(numbers))?;
    }
    if items.len() > MOST_NUMBERS {
        items.clear();
    }
    Ok(Ints::from_vec(items))
}
