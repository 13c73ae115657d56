//! The expressions of an algorithm.
ghost use Rattle.std.specs.Prelude.{◌≡◌, ◌+◌, ◌++◌, ◌<◌, ◌≤◌, List, length, take, drop};
ghost use Rattle.std.specs.List.{enumerate_from};
ghost use Rattle.job_build.specs.Found.{GivesItems};
ghost use Rattle.text_model.specs.Gives.{Gives};
ghost use Rattle.text_model.specs.JobAlgorithms.{filter_at, nodes_at, output_at};
ghost use Rattle.text_model.specs.Steps.{collect};
ghost use Rattle.text_model.specs.declared.job_refusal.JobRefusal.TheVariants.{NoMemory};
ghost use Rattle.text_model.specs.declared.named.Named.{Named as NamedTold};

use expr_text::parse;
use hive_model::{Duplicate, Expr, Kind, Output, Text};
use job_options::{below, numbered};
use std::alloc::Global;
use text_model::{ExprRefusal, JobRefusal, Named, RawOutput};

// The outputs of an algorithm at a path, whose first handles are its inputs and whose others are its outputs.
#[tactic(auto, unfolding(text_model::specs::Steps::collect))]
pub(crate) fn outputs(
    alloc: Global,
    path: &str,
    handles: &[Named],
    inputs: usize,
    raws: &[RawOutput],
) -> Result<Vec<Output>, JobRefusal>
    requires { inputs + length raws.now ≤ length handles.now }
    ensures { GivesItems result (collect
        (output_at path.now (take inputs handles.now) (drop inputs handles.now))
        (enumerate_from 0 raws.now)) }
{
    let mut found = Vec::with_capacity(alloc, raws.len())?;
    for (above, raw) in raws.iter().enumerate() {
        let seen = &handles[..inputs + above];
        let output = output(alloc, path, seen, above, raw)?;
        found.push(output)?;
    }
    Ok(found)
}

#[tactic(auto, unfolding(text_model::specs::JobAlgorithms::output_at))]
fn output(
    alloc: Global,
    path: &str,
    seen: &[Named],
    above: usize,
    raw: &RawOutput,
) -> Result<Output, JobRefusal>
    requires { above < usize.MAX }
    ensures { (inputs all : List NamedTold) → seen.now ≡ inputs ++ take above all
        → Gives NoMemory result (output_at path.now inputs all (above, raw.now)) }
{
    let place = numbered(alloc, below(alloc, path, "output")?.as_str(), above + 1)?;
    let place = below(alloc, place.as_str(), "value")?;
    let value = expression(alloc, place.as_str(), &raw.value, seen, raw.kind)?;
    Ok(Output {
        name: raw.name.copy(alloc)?,
        kind: raw.kind,
        value,
    })
}

// The filter of an algorithm at a path.
#[tactic(auto, unfolding(text_model::specs::JobAlgorithms::filter_at))]
pub(crate) fn filter(
    alloc: Global,
    path: &str,
    seen: &[Named],
    text: &Option<Text>,
) -> Result<Option<Expr>, JobRefusal>
    ensures { Gives NoMemory result (filter_at path.now seen.now text.now) }
{
    match text {
        Some(text) => {
            let place = below(alloc, path, "filter")?;
            let nodes = expression(alloc, place.as_str(), text, seen, Kind::Num)?;
            Ok(Some(nodes))
        }
        None => Ok(None),
    }
}

// The expression of a text at a path.
#[tactic(auto, unfolding(text_model::specs::JobAlgorithms::nodes_at))]
fn expression(
    alloc: Global,
    path: &str,
    text: &Text,
    seen: &[Named],
    kind: Kind,
) -> Result<Expr, JobRefusal>
    ensures { Gives NoMemory result (nodes_at path.now text.now seen.now kind) }
{
    match parse(alloc, text.as_str(), seen, kind) {
        Ok(expr) => Ok(expr),
        Err(ExprRefusal::NoMemory) => Err(JobRefusal::NoMemory),
        Err(cause) => Err(JobRefusal::Expr {
            path: Text::from_str(alloc, path)?,
            cause,
        }),
    }
}
