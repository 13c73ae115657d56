//! The job of an options text.
ghost use Rattle.std.specs.Prelude.{◌≡◌, ◌≤◌, length, IfOk};
ghost use Rattle.event_laws.specs.Uncut.{HasNoCut};
ghost use Rattle.hive_model.specs.Valid.{IsValidJob};
ghost use Rattle.job_build.specs.Steps.{scope_read};
ghost use Rattle.job_options.specs.Known.{known_language};
ghost use Rattle.job_options.specs.Uncut.{IsUncut};
ghost use Rattle.text_model.specs.Gives.{Gives};
ghost use Rattle.text_model.specs.Jobs.{job_of, job_of_raw, job_with};
ghost use Rattle.text_model.specs.Shape.{HasShape};
ghost use Rattle.text_model.specs.declared.job_refusal.JobRefusal.TheVariants.{NoMemory};

use crate::algorithms::all_algorithms;
use crate::forest::{forest, sequences};
use crate::kinds::kinds_of;
use crate::names::checked_resources;
use crate::naming::names_of;
use crate::needs::{has_too_many_handles, needs};
use crate::scope::Scope;
use control_tree::Tree;
use hive_model::{Algorithm, Job, MOST_SEQUENCES, Many, Text};
use job_options::read;
use std::alloc::{AllocError, Global};
use text_model::{JobRefusal, OptionsRefusal, RawOptions};

/// The job of an options text (docs/FORMATS.md, "Options"). The errors are the first refusal of
/// docs/FORMATS.md, "Refusals of options", and that memory ran out, here or in a part.
#[tactic(auto, using(crate::proofs::Phases::reading))]
pub fn build(alloc: Global, bytes: &[u8]) -> Result<Job, JobRefusal>
    ensures meaning { Gives NoMemory result (job_of known_language bytes.now) }
    ensures valid { IfOk result IsValidJob }
    // No sequence of the language that is known can be a cut node.
    ensures uncut { IfOk result HasNoCut }
{
    match read(alloc, bytes) {
        Ok(raw) => build_raw(alloc, raw),
        Err(refusal) => Err(JobRefusal::from(refusal)),
    }
}

#[tactic(auto, using(crate::proofs::Phases::phases))]
fn build_raw(alloc: Global, raw: RawOptions) -> Result<Job, JobRefusal>
    requires shape { HasShape raw }
    requires uncut { IsUncut raw }
    ensures { Gives NoMemory result (job_of_raw raw) }
{
    let scope = scope(alloc, &raw)?;
    let algorithms = all_algorithms(alloc, &scope, &raw)?;
    let tree = forest(alloc, &raw)?;
    Ok(job(alloc, raw, algorithms, &tree)?)
}

#[tactic(auto, using(crate::proofs::Phases::few), unfolding(crate::specs::Steps::scope_read))]
fn scope(alloc: Global, raw: &RawOptions) -> Result<Scope, JobRefusal>
    requires { HasShape raw.now }
    ensures { Gives NoMemory result (scope_read raw.now) }
{
    let raws = names_of(alloc, raw.raws.as_slice())?;
    let needs = needs(alloc, raw.algorithms.as_slice())?;
    if has_too_many_handles(raws.as_slice(), needs.as_slice()) {
        return Err(JobRefusal::Options(OptionsRefusal::Range {
            path: Text::from_str(alloc, "handle")?,
        }));
    }
    let resources = checked_resources(alloc, raw)?;
    let graph = producer_graph::build(alloc, raws.as_slice(), needs.as_slice())?;
    Ok(Scope {
        graph,
        kinds: kinds_of(alloc, raw)?,
        resources,
    })
}

fn job(
    alloc: Global,
    raw: RawOptions,
    algorithms: Vec<Algorithm>,
    tree: &Tree,
) -> Result<Job, AllocError>
    requires few { length raw.sequences ≤ MOST_SEQUENCES }
    requires each { length tree.now.members ≡ length raw.sequences }
    ensures { IfOk result (λ it. it ≡ job_with raw algorithms.items tree.now) }
{
    let sequences = sequences(alloc, raw.sequences.as_slice(), tree)?;
    Ok(Job {
        raws: raw.raws,
        resources: raw.resources,
        algorithms: Many::from_vec(algorithms),
        sequences: Many::from_vec(sequences),
        top: tree.top(),
    })
}
