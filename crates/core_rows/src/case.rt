//! The parts of a row.
use std::alloc::{AllocError, Global};

/// A row of calls of a desk.
#[derive(Drop)]
pub(crate) struct Case<'a> {
    /// What it shows.
    pub(crate) name: &'a str,
    /// The file of the job's options.
    pub(crate) file: &'a str,
    pub(crate) slots: u8,
    pub(crate) records: &'a str,
    pub(crate) calls: &'a str,
}

/// The case of a line, or `None` where the line is no row.
pub(crate) fn case_of(alloc: Global, line: &str) -> Result<Option<Case<'_>>, AllocError> {
    let parts: Vec<&str> = line.split('|').collect(alloc)?;
    let [name, file, slots, records, calls] = parts.as_slice() else {
        return Ok(None);
    };
    Ok(Some(Case {
        name: name.trim(),
        file: file.trim(),
        slots: slots.trim().parse().unwrap_or(0),
        records,
        calls,
    }))
}

/// A row of jobs that are drawn by lot.
#[derive(Drop)]
pub(crate) struct Trials<'a> {
    /// What it shows.
    pub(crate) name: &'a str,
    pub(crate) start: u64,
    pub(crate) jobs: u64,
    /// How many for each job.
    pub(crate) events: u64,
}

/// The trials of a line, or `None` where the line has none.
pub(crate) fn trials_of(alloc: Global, line: &str) -> Result<Option<Trials<'_>>, AllocError> {
    let parts: Vec<&str> = line.split('|').collect(alloc)?;
    let [name, start, jobs, events] = parts.as_slice() else {
        return Ok(None);
    };
    Ok(Some(Trials {
        name: name.trim(),
        start: number_of(start),
        jobs: number_of(jobs),
        events: number_of(events),
    }))
}

// A number, or 0 where it isn't one.
fn number_of(text: &str) -> u64 {
    text.trim().parse().unwrap_or(0)
}
