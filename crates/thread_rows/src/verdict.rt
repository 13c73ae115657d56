//! What is wrong with what a call came to, if anything is.
use crate::call::Called;
use crate::checks::first_broken;
use crate::difference::difference;
use crate::law::LAWS;
use crate::sample::Sample;
use crate::watch::Watch;
use hive_top::{DEFAULT_SLOTS, DEFAULT_WORKERS};
use std::alloc::{AllocError, Global};

/// What isn't as it must be: the status, the text, what was executed, or the journal; `None` where all is.
pub(crate) fn trouble_with(
    alloc: Global,
    sample: &Sample,
    words: &str,
    called: &Called,
    watch: &Watch<'_>,
) -> Result<Option<String>, AllocError> {
    let due = &sample.due;
    if called.status != due.status {
        let status = called.status.code();
        return Ok(Some(format!(in alloc; "status {status}")?));
    }
    if let Some(place) = difference(alloc, due.text.as_slice(), called.text())? {
        return Ok(Some(place));
    }
    if has_workers(words) && !watch.were_once(due.results.as_slice()) {
        return told(alloc, "an algorithm wasn't executed as often as is due");
    }
    if !watch.were_few() {
        return told(alloc, "an instance or a unit was used twice at a time");
    }
    broken(alloc, sample, words, called)
}

fn told(alloc: Global, text: &str) -> Result<Option<String>, AllocError> {
    Ok(Some(String::from_str(alloc, text)?))
}

fn broken(
    alloc: Global,
    sample: &Sample,
    words: &str,
    called: &Called,
) -> Result<Option<String>, AllocError> {
    let slots = number_behind(words, "--slots", DEFAULT_SLOTS);
    let workers = number_behind(words, "--workers", DEFAULT_WORKERS);
    let journal = called.journal.as_slice();
    match first_broken(alloc, sample, slots, workers, journal)? {
        Some(broken) => Ok(Some(broken.text(alloc)?)),
        None => Ok(None),
    }
}

// Without workers the gate is told of nothing.
fn has_workers(words: &str) -> bool {
    number_behind(words, "--workers", DEFAULT_WORKERS) > 0
}

// The number that stands behind the name of an option.
fn number_behind(words: &str, name: &str, default: u8) -> u8 {
    let mut is_next = false;
    for word in words.split_whitespace() {
        if is_next {
            return word.parse().unwrap_or(0);
        }
        is_next = word == name;
    }
    default
}

/// What is as it must be.
pub(crate) fn summary(alloc: Global, sample: &Sample) -> Result<String, AllocError> {
    let due = &sample.due;
    let counts = &due.counts;
    format!(in alloc;
        "status {}, {} bytes, {} events, {} ok, {} failed, {} stalled, journal kept {LAWS} laws",
        due.status.code(),
        due.text.len(),
        counts.events,
        counts.ok,
        counts.failed,
        counts.stalled
    )
}
