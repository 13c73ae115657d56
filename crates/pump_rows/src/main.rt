//! Rows of runs over a source and a sink in memory: each line of the input is the records of a run of one job, and which
//! calls of the outside fail; what is printed is how the run ended, its counts, and what the sink got. `stdout` holds what
//! docs/FORMATS.md says.
//!
//! A row has six parts with `|` between: `plain`, or `brief` for the last line alone; the records, with `\n` for a line
//! feed; how many bytes the source gives in one call; how many the sink takes in one call; and the numbers of the calls of
//! source and sink that fail. The job is that of data/.
#![tactic(auto)]

mod case;
mod run;

ghost use Rattle.std.specs.Prelude.{◌<◌, IfOk, IfSome};
ghost use Rattle.std.specs.Arc.{arc_value};
ghost use Rattle.event_laws.specs.Uncut.{HasNoCut};
ghost use Rattle.hive_model.specs.Valid.{IsValidJob};

use anyhow::bail;
use case::{Case, case_of};
use hive_model::Job;
use job_build::build;
use run::pumped;
use std::alloc::{AllocError, Global};
use std::fs;
use std::sync::Arc;

fn main(rt: HostRuntime) -> anyhow::Result<()> {
    let options = fs::read(&rt, "sum_then_cut.toml")?;
    match job_of(rt.alloc(), options.as_slice())? {
        Some(job) => print_rows(&rt, &job),
        None => bail!("the options are refused"),
    }
}

fn job_of(alloc: Global, options: &[u8]) -> Result<Option<Arc<Job>>, AllocError>
    ensures valid { IfOk result (λ o. IfSome o (λ it. IsValidJob (arc_value it))) }
    ensures uncut { IfOk result (λ o. IfSome o (λ it. HasNoCut (arc_value it))) }
{
    match build(alloc, options) {
        Ok(job) => Ok(Some(Arc::new(alloc, job)?)),
        Err(_) => Ok(None),
    }
}

fn print_rows(rt: &HostRuntime, job: &Arc<Job>) -> anyhow::Result<()>
    requires valid { IsValidJob (arc_value job.now) }
    requires uncut { HasNoCut (arc_value job.now) }
{
    let mut count: u64 = 0;
    for line in rt.lines(rt.alloc()) {
        let line = line?;
        match case_of(rt.alloc(), line.as_str())? {
            Some(case) => {
                print_case(rt, job, &case)?;
                count = count.saturating_add(1);
            }
            None => println!(rt; "no row: {line}")?,
        }
    }
    println!(rt; "{count} rows")?;
    Ok(())
}

fn print_case(rt: &HostRuntime, job: &Arc<Job>, case: &Case) -> anyhow::Result<()>
    requires valid { IsValidJob (arc_value job.now) }
    requires uncut { HasNoCut (arc_value job.now) }
    requires piece { 0 < case.now.piece }
    requires takes { 0 < case.now.takes }
{
    let (ending, counts, text) = pumped(rt.alloc(), job, case)?;
    let (events, ok, failed) = (counts.events, counts.ok, counts.failed);
    println!(rt;
        "{ending:?} {events} {ok} {failed} {} {text:?}",
        counts.stalled
    )?;
    Ok(())
}
