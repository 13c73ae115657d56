//! The line of `check` (docs/FORMATS.md, "What check writes").
ghost use Rattle.std.specs.Prelude.{◌≡◌, ◌++◌, ◌^◌, ◌<◌, decimal, OnOk};
ghost use Rattle.hive_model.specs.Handles.{handle_count};
ghost use Rattle.hive_top.specs.JobLine.{job_line};

use hive_model::Job;
use itoa::Buffer;
use std::alloc::AllocError;

/// Appends how many algorithms, sequences and handles a job has. The only error is that memory ran out.
pub fn push_job_line(out: &mut Vec<u8>, job: &Job) -> Result<(), AllocError>
    requires few { handle_count job.now < 2 ^ 16 }
    ensures { OnOk result (out.new.items ≡ out.old.items ++ job_line job.now) }
{
    push_number(out, b"job ", job.algorithms().len() as u64)?;
    push_number(out, b" algorithms ", job.sequences().len() as u64)?;
    push_number(out, b" sequences ", u64::from(job.handles()))?;
    out.extend_from_slice(b" handles\n")?;
    Ok(())
}

fn push_number(out: &mut Vec<u8>, word: &[u8], number: u64) -> Result<(), AllocError>
    ensures { OnOk result (out.new.items ≡ out.old.items ++ (word.now ++ decimal number)) }
{
    let mut buffer = Buffer::new();
    out.extend_from_slice(word)?;
    out.extend_from_slice(buffer.format(number).as_bytes())
}
