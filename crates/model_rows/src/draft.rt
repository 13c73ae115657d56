//! The job and the record of a row.
ghost use Rattle.std.specs.Prelude.{IfOk, IfSome};
ghost use Rattle.std.specs.List.{AllByRecursion};
ghost use Rattle.hive_model.specs.Runnable.{CanExecute, IsRunnable};

use crate::sequence::sequence_of;
use hive_model::{Algorithm, EventRecord, Job, Kind, Many, Product, Raw, Sequence, Text};
use std::alloc::{AllocError, Global};
use text_model::Named;

/// The job and the record of a line, or `None` where the line has no `;`.
pub(crate) fn draft_of(alloc: Global, line: &str) -> anyhow::Result<Option<(Job, EventRecord)>>
    ensures { IfOk result (λ o. IfSome o (λ it. IsRunnable it.0)) }
{
    let Some((cell, sequences)) = line.split_once(';') else {
        return Ok(None);
    };
    let record = record_of(alloc, cell.trim())?;
    let job = job_of(alloc, sequences)?;
    Ok(Some((job, record)))
}

fn record_of(alloc: Global, cell: &str) -> anyhow::Result<EventRecord> {
    let cell = match cell {
        "?" => None,
        number => Some(Product::Num(number.parse()?)),
    };
    Ok(EventRecord {
        event: 1,
        cells: Many::from_vec(Vec::from_array(alloc, [cell])?),
    })
}

fn job_of(alloc: Global, text: &str) -> anyhow::Result<Job>
    ensures { IfOk result IsRunnable }
{
    let mut algorithms = Vec::new(alloc);
    let sequences = sequences_of(alloc, text, &mut algorithms)?;
    Ok(job_with(alloc, algorithms, sequences)?)
}

fn job_with(
    alloc: Global,
    algorithms: Vec<Algorithm>,
    sequences: Vec<Sequence>,
) -> Result<Job, AllocError>
    requires { AllByRecursion CanExecute algorithms.items }
    ensures { IfOk result IsRunnable }
{
    let raws = raws(alloc)?;
    Ok(Job {
        raws,
        resources: Many::new(alloc),
        algorithms: Many::from_vec(algorithms),
        sequences: Many::from_vec(sequences),
        top: 0,
    })
}

fn raws(alloc: Global) -> Result<Many<Raw>, AllocError> {
    let name = Text::from_str(alloc, "n")?;
    let raw = Raw {
        name,
        kind: Kind::Num,
    };
    Ok(Many::from_vec(Vec::from_array(alloc, [raw])?))
}

fn raw_names(alloc: Global) -> Result<Vec<Named>, AllocError> {
    let name = Text::from_str(alloc, "n")?;
    let named = Named {
        name,
        handle: 0,
        kind: Kind::Num,
    };
    Ok(Vec::from_array(alloc, [named])?)
}

fn sequences_of(
    alloc: Global,
    text: &str,
    algorithms: &mut Vec<Algorithm>,
) -> anyhow::Result<Vec<Sequence>>
    requires { AllByRecursion CanExecute algorithms.old.items }
    ensures { IfOk result (λ _. AllByRecursion CanExecute algorithms.new.items) }
{
    let mut names = raw_names(alloc)?;
    let mut sequences = Vec::new(alloc);
    for part in text.split(';') {
        let number = sequences.len();
        sequences.push(sequence_of(alloc, number, part, &mut names, algorithms)?)?;
    }
    Ok(sequences)
}
