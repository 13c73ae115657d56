//! What an options text comes to.
use hive_model::{Algorithm, Job};
use job_build::build;
use report_text::push_stop_options;
use std::alloc::{AllocError, Global};
use text_model::JobRefusal;

/// The line of its job, or the stop line; each ends with a line feed.
pub(crate) fn answer_to(alloc: Global, text: &[u8]) -> Result<String, AllocError> {
    match build(alloc, text) {
        Ok(job) => job_line(alloc, &job),
        Err(refusal) => stop_line(alloc, &refusal),
    }
}

fn job_line(alloc: Global, job: &Job) -> Result<String, AllocError> {
    let algorithms = job.algorithms.as_slice();
    let sequences = job.sequences.as_slice().len();
    let handles = handle_count(job.raws.as_slice().len(), algorithms);
    let many = algorithms.len();
    format!(in alloc; "job {many} algorithms {sequences} sequences {handles} handles\n")
}

fn handle_count(raws: usize, algorithms: &[Algorithm]) -> usize {
    let mut count = raws;
    for algorithm in algorithms {
        count = count.saturating_add(algorithm.outputs.as_slice().len());
    }
    count
}

fn stop_line(alloc: Global, refusal: &JobRefusal) -> Result<String, AllocError> {
    let mut line = Vec::new(alloc);
    push_stop_options(&mut line, refusal)?;
    String::from_utf8_lossy(alloc, line.as_slice())
}
