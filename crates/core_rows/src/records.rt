//! The records of a row.
use hive_model::{EventRecord, Ints, Job, Kind, MOST_NUMBERS, Many, Product, Raw};
use std::alloc::{AllocError, Global};

/// The records of lines with `;` between. The cells of a line have commas between: first the event's number,
/// and then one for each raw handle, `?` where it is absent, a number, or numbers with spaces between.
pub(crate) fn records_of(
    alloc: Global,
    job: &Job,
    lines: &str,
) -> Result<Vec<EventRecord>, AllocError> {
    let mut records = Vec::new(alloc);
    for line in lines.split(';') {
        let cells: Vec<&str> = line.trim().split(',').collect(alloc)?;
        records.push(record_of(alloc, job, cells.as_slice())?)?;
    }
    Ok(records)
}

fn record_of(alloc: Global, job: &Job, cells: &[&str]) -> Result<EventRecord, AllocError> {
    let mut products = Vec::new(alloc);
    for (index, raw) in job.raws().iter().enumerate() {
        let text = match cells.get(index.saturating_add(1)) {
            Some(text) => text,
            None => "?",
        };
        products.push(cell_of(alloc, raw, text)?)?;
    }
    Ok(EventRecord {
        event: number_of(cells),
        cells: Many::from_vec(products),
    })
}

fn number_of(cells: &[&str]) -> u64 {
    match cells.first() {
        Some(text) => text.parse().unwrap_or(0),
        None => 0,
    }
}

fn cell_of(alloc: Global, raw: &Raw, text: &str) -> Result<Option<Product>, AllocError> {
    if text == "?" {
        return Ok(None);
    }
    match raw.kind {
        Kind::Num => Ok(Some(Product::Num(text.parse().unwrap_or(0)))),
        Kind::List => Ok(Some(Product::List(numbers_of(alloc, text)?))),
    }
}

fn numbers_of(alloc: Global, text: &str) -> Result<Ints, AllocError> {
    let mut numbers = Vec::new(alloc);
    for word in text.split_whitespace() {
        numbers.push(word.parse().unwrap_or(0))?;
    }
    if numbers.len() > MOST_NUMBERS {
        numbers.clear();
    }
    Ok(Ints::from_vec(numbers))
}
