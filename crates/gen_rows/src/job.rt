//! The job of the generated options.
ghost use Rattle.std.specs.Prelude.{IfOk, IfSome};
ghost use Rattle.std.specs.Arc.{arc_value};
ghost use Rattle.event_laws.specs.Uncut.{HasNoCut};
ghost use Rattle.hive_model.specs.Valid.{IsValidJob};

use hive_gen::options;
use hive_model::Job;
use job_build::build;
use std::alloc::{AllocError, Global};
use std::sync::Arc;

/// The job, or `None` where the options are refused.
pub(crate) fn job(alloc: Global) -> Result<Option<Arc<Job>>, AllocError>
    ensures valid { IfOk result (λ o. IfSome o (λ it. IsValidJob (arc_value it))) }
    ensures uncut { IfOk result (λ o. IfSome o (λ it. HasNoCut (arc_value it))) }
{
    let options = options(alloc)?;
    match build(alloc, options.as_slice()) {
        Ok(job) => Ok(Some(Arc::new(alloc, job)?)),
        Err(_) => Ok(None),
    }
}

/// How many algorithms, sequences and handles the job has.
pub(crate) fn job_line(alloc: Global) -> Result<String, AllocError> {
    match job(alloc)? {
        Some(job) => line_of(alloc, &job),
        None => format!(in alloc; "no job\n"),
    }
}

fn line_of(alloc: Global, job: &Job) -> Result<String, AllocError>
    requires { IsValidJob job.now }
{
    let (algorithms, sequences) = (job.algorithms().len(), job.sequences().len());
    let handles = job.handles();
    format!(in alloc; "job {algorithms} algorithms {sequences} sequences {handles} handles\n")
}
