//! The names that algorithms speak of.
ghost use Rattle.std.specs.Prelude.{◌≡◌, ◌+◌, ◌++◌, ◌≤◌, length, map, filter_map, IfOk, OnOk};
ghost use Rattle.hive_model.specs.declared.limits.TheConstants.{MOST_HANDLES, MOST_RESOURCES};
ghost use Rattle.job_build.specs.Kinds.{told_from};
ghost use Rattle.text_model.specs.JobAlgorithms.{handle_named};
ghost use Rattle.text_model.specs.Names.{number_of};
ghost use Rattle.text_model.specs.declared.named.Named.{Named as NamedTold};

use graph_parts::Names;
use hive_model::{Duplicate, Kind, Text};
use producer_graph::Graph;
use std::alloc::{AllocError, Global};
use std::marker::Model;
use text_model::{Named, RawOutput};

// Handles, each with its kind, and resources. Contracts see their names in the order of their numbers.
#[derive(Drop)]
pub(crate) struct Scope {
    pub(crate) graph: Graph,
    pub(crate) kinds: Vec<Kind>,
    pub(crate) resources: Names,
}

impl Model for Scope {
    ghost use Rattle.std.specs.Prelude.{◌≤◌, length};
    ghost use Rattle.hive_model.specs.declared.limits.TheConstants.{MOST_RESOURCES};
    ghost use Rattle.text_model.specs.JobAlgorithms.{Scope as Shown};

    ghost Value = { Shown };

    ghost view = { λ it. record { handles = it.graph.names; kinds = it.kinds.items; resources = it.resources } };

    ghost invariant = { λ it. length it.resources ≤ MOST_RESOURCES };
}

impl Scope {
    // The resources.
    pub(crate) fn resources(&self) -> &Names
        ensures value { result.now ≡ self.now.resources }
        ensures few { length result.now ≤ MOST_RESOURCES }
    {
        &self.resources
    }

    // The handle of that name.
    fn handle_named(&self, alloc: Global, name: &Text) -> Result<Option<Named>, AllocError>
        ensures { IfOk result (λ it. it ≡ handle_named self.now name.now) }
    {
        let Some(handle) = self.graph.number(name.as_str()) else {
            return Ok(None);
        };
        match self.kinds.get(handle as usize) {
            Some(kind) => Ok(Some(Named {
                name: name.copy(alloc)?,
                handle,
                kind: *kind,
            })),
            None => Ok(None),
        }
    }
}

// The handles of these names, without those that there aren't.
pub(crate) fn handles_in(
    alloc: Global,
    scope: &Scope,
    names: &[Text],
) -> Result<Vec<Named>, AllocError>
    ensures { IfOk result (λ it. it.items ≡ filter_map (handle_named scope.now) names.now) }
{
    let mut found = Vec::with_capacity(alloc, names.len())?;
    for name in names {
        let Some(handle) = scope.handle_named(alloc, name)? else {
            continue;
        };
        found.push(handle)?;
    }
    Ok(found)
}

// The numbers of the resources of these names, without those that there aren't.
pub(crate) fn resource_numbers(
    alloc: Global,
    resources: &Names,
    names: &[Text],
) -> Result<Vec<u16>, AllocError>
    requires { length resources.now ≤ MOST_RESOURCES }
    ensures { IfOk result (λ it. it.items ≡ filter_map (number_of resources.now) names.now) }
{
    let mut found = Vec::with_capacity(alloc, names.len())?;
    for name in names {
        let Some(number) = resources.number_of(name.as_str()) else {
            continue;
        };
        found.push(number as u16)?;
    }
    Ok(found)
}

// Adds an algorithm's outputs, the first of which is that handle.
pub(crate) fn push_outputs(
    alloc: Global,
    seen: &mut Vec<Named>,
    first: u16,
    outputs: &[RawOutput],
) -> Result<(), AllocError>
    requires { first + length outputs.now ≤ MOST_HANDLES }
    ensures { OnOk result (seen.new.items ≡ seen.old.items ++ told_from first outputs.now) }
{
    for (index, output) in outputs.iter().enumerate() {
        let name = output.name.copy(alloc)?;
        seen.push(Named {
            name,
            handle: first + index as u16,
            kind: output.kind,
        })?;
    }
    Ok(())
}

// The numbers of handles.
pub(crate) fn numbers_of(alloc: Global, handles: &[Named]) -> Result<Vec<u16>, AllocError>
    ensures { IfOk result (λ it. it.items ≡ map (λ (n : NamedTold). n.handle) handles.now) }
{
    let mut numbers = Vec::with_capacity(alloc, handles.len())?;
    for handle in handles {
        numbers.push(handle.handle)?;
    }
    Ok(numbers)
}
