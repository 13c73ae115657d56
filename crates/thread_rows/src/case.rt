//! The parts of a row.
use std::alloc::{AllocError, Global};

/// A row. Files are those of data/.
#[derive(Clone, Copy)]
pub(crate) enum Row<'a> {
    /// A call that is made so many times.
    Run(Call<'a>, u64),
    /// A call once, with executions that are held.
    Hold(Call<'a>, Held),
    /// A call of `bulk` that is made so many times.
    Bulk(Bulk<'a>, u64),
    /// A journal that is written by hand.
    Journal(Journal<'a>),
    /// Two texts that are compared: what is due, and what was got.
    Texts(&'a str, &'a str),
}

/// A call on records that are drawn by lot.
#[derive(Clone, Copy)]
pub(crate) struct Call<'a> {
    pub(crate) words: &'a str,
    pub(crate) file: &'a str,
    /// How many records.
    pub(crate) records: u64,
}

/// How executions are held.
#[derive(Clone, Copy)]
pub(crate) struct Held {
    /// How many must have begun.
    pub(crate) wanted: u64,
    /// How often one of them lets other threads run before it gives up.
    pub(crate) patience: u64,
}

#[derive(Clone, Copy)]
pub(crate) struct Bulk<'a> {
    pub(crate) words: &'a str,
    /// The words that write its records.
    pub(crate) records: &'a str,
}

/// Records and entries have `;` for a line feed.
#[derive(Clone, Copy)]
pub(crate) struct Journal<'a> {
    /// What it shows.
    pub(crate) name: &'a str,
    pub(crate) file: &'a str,
    pub(crate) records: &'a str,
    pub(crate) slots: u8,
    pub(crate) entries: &'a str,
}

/// The row of a line, or `None` where the line is none.
pub(crate) fn row_of(alloc: Global, line: &str) -> Result<Option<Row<'_>>, AllocError> {
    let mut parts = Vec::new(alloc);
    for part in line.split('|') {
        parts.push(part.trim())?;
    }
    let Some((kind, parts)) = parts.as_slice().split_first() else {
        return Ok(None);
    };
    Ok(match *kind {
        "run" => run_of(parts),
        "hold" => hold_of(parts),
        "bulk" => bulk_of(parts),
        "journal" => journal_of(parts),
        "texts" => texts_of(parts),
        _ => None,
    })
}

fn run_of<'a>(parts: &[&'a str]) -> Option<Row<'a>> {
    match parts {
        [words, file, records, times] => Some(Row::Run(
            Call {
                words,
                file,
                records: number_of(records),
            },
            number_of(times),
        )),
        _ => None,
    }
}

fn hold_of<'a>(parts: &[&'a str]) -> Option<Row<'a>> {
    match parts {
        [words, file, records, wanted, patience] => Some(Row::Hold(
            Call {
                words,
                file,
                records: number_of(records),
            },
            Held {
                wanted: number_of(wanted),
                patience: number_of(patience),
            },
        )),
        _ => None,
    }
}

fn bulk_of<'a>(parts: &[&'a str]) -> Option<Row<'a>> {
    match parts {
        [words, records, times] => Some(Row::Bulk(Bulk { words, records }, number_of(times))),
        _ => None,
    }
}

fn journal_of<'a>(parts: &[&'a str]) -> Option<Row<'a>> {
    match parts {
        [name, file, records, slots, entries] => Some(Row::Journal(Journal {
            name,
            file,
            records,
            slots: slots.parse().unwrap_or(0),
            entries,
        })),
        _ => None,
    }
}

fn texts_of<'a>(parts: &[&'a str]) -> Option<Row<'a>> {
    match parts {
        [due, got] => Some(Row::Texts(due, got)),
        _ => None,
    }
}

// A number, or 0 where it isn't one.
fn number_of(text: &str) -> u64 {
    text.parse().unwrap_or(0)
}
