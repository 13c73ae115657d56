//! A job with records.
ghost use Rattle.hive_model.specs.Valid.{IsValidJob};

use crate::alone::{Due, evaluated};
use crate::call::Given;
use crate::records::drawn;
use anyhow::bail;
use hive_model::Job;
use job_build::build;
use std::alloc::{AllocError, Global};
use std::sync::Arc;

/// A job with records, and what a run of them is due.
#[derive(Drop)]
pub(crate) struct Sample {
    pub(crate) job: Arc<Job>,
    pub(crate) due: Due,
    options: Vec<u8>,
    records: Vec<u8>,
}

/// Where the records of a sample come from.
#[derive(Drop)]
pub(crate) enum Origin {
    /// So many are drawn.
    Drawn(u64),
    /// They are this text.
    Text(Vec<u8>),
}

impl Sample {
    /// The records over the job of these options. Where the run is brief its last line alone is due.
    pub(crate) fn new(
        alloc: Global,
        options: Vec<u8>,
        origin: Origin,
        brief: bool,
    ) -> anyhow::Result<Sample> {
        match build(alloc, options.as_slice()) {
            Ok(job) => with_job(alloc, options, job, origin, brief),
            Err(refusal) => bail!("the options are refused: {refusal:?}"),
        }
    }

    /// What a call of the sample reads.
    pub(crate) fn given(&self) -> Given<'_> {
        Given {
            options: self.options.as_slice(),
            records: self.records.as_slice(),
        }
    }
}

fn with_job(
    alloc: Global,
    options: Vec<u8>,
    job: Job,
    origin: Origin,
    brief: bool,
) -> anyhow::Result<Sample>
    requires { IsValidJob job }
{
    let records = records_of(alloc, &job, origin)?;
    let job = Arc::new(alloc, job)?;
    Ok(Sample {
        due: evaluated(alloc, &job, records.as_slice(), brief)?,
        job,
        options,
        records,
    })
}

fn records_of(alloc: Global, job: &Job, origin: Origin) -> Result<Vec<u8>, AllocError> {
    match origin {
        Origin::Drawn(count) => Ok(drawn(alloc, job, count)?.into_bytes()),
        Origin::Text(text) => Ok(text),
    }
}
