//! A run over a source and a sink in memory.
ghost use Rattle.std.specs.Prelude.{◌<◌};
ghost use Rattle.std.specs.Arc.{arc_value};
ghost use Rattle.event_laws.specs.Uncut.{HasNoCut};
ghost use Rattle.hive_model.specs.Valid.{IsValidJob};

use crate::case::Case;
use hive_edge::{MemSink, MemSource};
use hive_model::Job;
use hive_pump::{Ending, Plan, pump_plain};
use report_text::Counts;
use std::alloc::{AllocError, Global};
use std::sync::Arc;

// The most bytes that a row's run writes.
const ROOM: usize = 65_536;

/// How the case's run ended, its counts, and what its sink got.
pub(crate) fn pumped(
    alloc: Global,
    job: &Arc<Job>,
    case: &Case,
) -> Result<(Ending, Counts, String), AllocError>
    requires valid { IsValidJob (arc_value job.now) }
    requires uncut { HasNoCut (arc_value job.now) }
    requires piece { 0 < case.now.piece }
    requires takes { 0 < case.now.takes }
{
    let bytes = Vec::from_slice(alloc, case.records.as_bytes())?;
    let mut source = MemSource::new(bytes, case.piece, case.source.clone()?);
    let mut sink = MemSink::new(alloc, case.takes, ROOM, case.sink.clone()?)?;
    let plan = Plan {
        slots: 1,
        workers: 0,
        brief: case.brief,
    };
    let pumped = pump_plain(alloc, Arc::try_clone(job)?, &plan, &mut source, &mut sink);
    let text = String::from_utf8_lossy(alloc, sink.got())?;
    Ok((pumped.ending, pumped.counts, text))
}
