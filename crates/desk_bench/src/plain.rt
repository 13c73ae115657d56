//! A plain loop over a file of records, with no scheduler: each record is read, evaluated by itself, and reported.
ghost use Rattle.std.specs.Prelude.{◌≡◌, false};
ghost use Rattle.std.specs.Arc.{arc_value};
ghost use Rattle.hive_model.specs.Same.{texts};
ghost use Rattle.hive_model.specs.Valid.{IsValidJob, handle_names};

use crate::desks::alone;
use anyhow::bail;
use event_records::{Next, Records};
use hive_model::{EventRecord, Job};
use report_text::{names_of, push_report};
use std::alloc::{AllocError, Global};
use std::io::{Write, writer};
use std::sync::Arc;

// How many bytes of records are read, and how many of reports are kept before they are written.
const PIECE: usize = 65_536;

/// Writes the reports of the records to standard output.
pub(crate) fn report_records(rt: &HostRuntime, job: Job, text: &[u8]) -> anyhow::Result<()>
    requires { IsValidJob job }
{
    let job = Arc::new(rt.alloc(), job)?;
    let reader = Records::new(rt.alloc(), Arc::try_clone(&job)?)?;
    report_all(rt, &job, reader, text)
}

fn report_all(rt: &HostRuntime, job: &Job, mut reader: Records, text: &[u8]) -> anyhow::Result<()>
    requires valid { IsValidJob job.now }
    requires open { reader.ended ≡ false }
{
    let names = names_of(rt.alloc(), job)?;
    let mut out = Vec::new(rt.alloc());
    for piece in text.chunks(PIECE) {
        reader.feed(piece)?;
        push_reports(rt.alloc(), job, names.as_slice(), &mut reader, &mut out)?;
        writer(rt).write_all(out.as_slice())?;
        out.clear();
    }
    Ok(())
}

// Appends the reports of the records that are there.
fn push_reports(
    alloc: Global,
    job: &Job,
    names: &[&str],
    reader: &mut Records,
    out: &mut Vec<u8>,
) -> anyhow::Result<()>
    requires valid { IsValidJob job.now }
    requires names { texts names.now ≡ handle_names job.now }
    ensures { reader.new.ended ≡ reader.old.ended }
{
    for _ in 0..u64::MAX {
        match reader.next(alloc) {
            Next::Event(record) => push_alone(alloc, job, names, &record, out)?,
            Next::More | Next::Finished => return Ok(()),
            Next::Refused(refusal) => bail!("{refusal}"),
            Next::NoMemory => bail!("out of memory"),
        }
    }
    Ok(())
}

// Appends the report of what the record comes to by itself.
fn push_alone(
    alloc: Global,
    job: &Job,
    names: &[&str],
    record: &EventRecord,
    out: &mut Vec<u8>,
) -> Result<(), AllocError>
    requires valid { IsValidJob job.now }
    requires names { texts names.now ≡ handle_names job.now }
{
    let ended = alone(alloc, job, record)?;
    push_report(out, job, names, &ended)
}
