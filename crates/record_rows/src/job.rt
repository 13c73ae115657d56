//! The job of a row.
use hive_model::{Algorithm, Job, Kind, Many, Raw, Text};
use std::alloc::{AllocError, Global};

/// A job with these raw handles, and with so many algorithms that do nothing.
pub(crate) fn job_of(alloc: Global, algorithms: usize, raws: &str) -> Result<Job, AllocError> {
    let raws = raws_of(alloc, raws)?;
    let algorithms = idle(alloc, algorithms)?;
    Ok(Job {
        raws: Many::from_vec(raws),
        resources: Many::new(alloc),
        algorithms: Many::from_vec(algorithms),
        sequences: Many::new(alloc),
        top: 0,
    })
}

fn raws_of(alloc: Global, text: &str) -> Result<Vec<Raw>, AllocError> {
    let mut raws = Vec::new(alloc);
    for word in text.split_whitespace() {
        raws.push(raw_of(alloc, word)?)?;
    }
    Ok(raws)
}

fn raw_of(alloc: Global, word: &str) -> Result<Raw, AllocError> {
    let (name, kind) = word.split_once(':').unwrap_or((word, ""));
    Ok(Raw {
        name: Text::from_str(alloc, name)?,
        kind: if kind == "list" {
            Kind::List
        } else {
            Kind::Num
        },
    })
}

fn idle(alloc: Global, count: usize) -> Result<Vec<Algorithm>, AllocError> {
    let mut algorithms = Vec::new(alloc);
    for _ in 0..count {
        let name = Text::from_str(alloc, "Idle")?;
        algorithms.push(Algorithm::new(alloc, name, 0))?;
    }
    Ok(algorithms)
}
