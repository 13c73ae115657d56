//! A run of the job.
ghost use Rattle.std.specs.Arc.{arc_value};
ghost use Rattle.event_laws.specs.Uncut.{HasNoCut};
ghost use Rattle.hive_model.specs.Valid.{IsValidJob};

use crate::job::job;
use hive_edge::{MemSink, MemSource};
use hive_model::Job;
use hive_pump::{Plan, pump_plain};
use std::alloc::{AllocError, Global};
use std::sync::Arc;

// The most bytes that the source gives, and the sink takes, in one call.
const PIECE: usize = 65_536;

/// What a brief run of the generated job writes over these records.
pub(crate) fn run_text(alloc: Global, records: Vec<u8>) -> Result<String, AllocError> {
    match job(alloc)? {
        Some(job) => pumped(alloc, job, records),
        None => format!(in alloc; "no job\n"),
    }
}

fn pumped(alloc: Global, job: Arc<Job>, records: Vec<u8>) -> Result<String, AllocError>
    requires valid { IsValidJob (arc_value job) }
    requires uncut { HasNoCut (arc_value job) }
{
    let mut source = MemSource::new(records, PIECE, Vec::new(alloc));
    let mut sink = MemSink::new(alloc, PIECE, PIECE, Vec::new(alloc))?;
    let plan = Plan {
        slots: 1,
        workers: 0,
        brief: true,
    };
    let _pumped = pump_plain(alloc, job, &plan, &mut source, &mut sink);
    String::from_utf8_lossy(alloc, sink.got())
}
