//! The reading that is timed.
ghost use Rattle.std.specs.Prelude.{◌≡◌, ◌<◌};

use anyhow::bail;
use event_records::{Next, Records};
use hive_model::{Job, Kind, Many, Raw, Text};
use std::alloc::{AllocError, Global};
use std::sync::Arc;

/// A job with the raw handles `hits`, `calo` and `run`.
pub(crate) fn job(alloc: Global) -> Result<Arc<Job>, AllocError> {
    let hits = raw(alloc, "hits", Kind::List)?;
    let calo = raw(alloc, "calo", Kind::List)?;
    let run = raw(alloc, "run", Kind::Num)?;
    let job = Job {
        raws: Many::from_vec(Vec::from_array(alloc, [hits, calo, run])?),
        resources: Many::new(alloc),
        algorithms: Many::new(alloc),
        sequences: Many::new(alloc),
        top: 0,
    };
    Ok(Arc::new(alloc, job)?)
}

fn raw(alloc: Global, name: &str, kind: Kind) -> Result<Raw, AllocError> {
    Ok(Raw {
        name: Text::from_str(alloc, name)?,
        kind,
    })
}

/// How many records the text has, fed in pieces of that size.
pub(crate) fn read(alloc: Global, job: Arc<Job>, text: &[u8], size: usize) -> anyhow::Result<u64>
    requires { 0 < size }
{
    let mut reader = Records::new(alloc, job)?;
    let mut records: u64 = 0;
    for piece in text.chunks(size) {
        reader.feed(piece)?;
        records = records.saturating_add(take(alloc, &mut reader)?);
    }
    reader.end();
    records = records.saturating_add(take(alloc, &mut reader)?);
    Ok(records)
}

// Takes the records that are there.
fn take(alloc: Global, reader: &mut Records) -> anyhow::Result<u64>
    ensures { reader.new.ended ≡ reader.old.ended }
{
    for count in 0..u64::MAX {
        match reader.next(alloc) {
            Next::Event(_) => {}
            Next::More | Next::Finished => return Ok(count),
            Next::Refused(refusal) => bail!("{refusal}"),
            Next::NoMemory => bail!("out of memory"),
        }
    }
    Ok(0)
}
