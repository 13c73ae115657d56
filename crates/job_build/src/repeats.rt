//! Names that stand before already.
ghost use Rattle.std.specs.Prelude.{◌≡◌, false, [], ◌++◌, Some, IfOk, OnOk, string_bytes};
ghost use Rattle.job_build.specs.Found.{Finds};
ghost use Rattle.job_build.specs.Repeated.{place_of, placed, repeat_behind, resources_behind};
ghost use Rattle.text_model.specs.declared.job_refusal.JobRefusal.TheVariants.{Repeat, UnknownResource};

use graph_parts::Names;
use hive_model::Text;
use job_options::{below, numbered};
use std::alloc::{AllocError, Global};
use text_model::JobRefusal;

// Adds the names of an array to those that were seen; or refuses the first of them that was seen. With `keyed` they
// are those of its tables, at the key `name`, and else its elements.
#[tactic(auto, unfolding(crate::specs::Repeated::repeat_behind))]
pub(crate) fn add_names(
    alloc: Global,
    seen: &mut Names,
    keyed: bool,
    array: &str,
    names: &[Text],
) -> Result<(), JobRefusal>
    ensures found { Finds result (repeat_behind seen.old (placed keyed array.now 1 names.now)) }
    ensures seen { OnOk result (seen.new ≡ seen.old ++ names.now) }
{
    for (index, name) in names.iter().enumerate() {
        if !seen.add(alloc, name.as_str())? {
            return repeated(alloc, keyed, array, index + 1);
        }
    }
    Ok(())
}

// Refuses the first of the names that is no resource, or that stands among them before.
#[tactic(auto, unfolding(crate::specs::Repeated::resources_behind))]
pub(crate) fn check_resources(
    alloc: Global,
    known: &Names,
    array: &str,
    names: &[Text],
) -> Result<(), JobRefusal>
    ensures { Finds result (resources_behind known.now [] (placed false array.now 1 names.now)) }
{
    let mut seen = Names::new(alloc);
    for (index, name) in names.iter().enumerate() {
        if known.number_of(name.as_str()).is_none() {
            return unknown(alloc, array, index + 1);
        }
        if !seen.add(alloc, name.as_str())? {
            return repeated(alloc, false, array, index + 1);
        }
    }
    Ok(())
}

fn repeated(alloc: Global, keyed: bool, array: &str, number: usize) -> Result<(), JobRefusal>
    ensures { Finds result (Some (Repeat (place_of keyed array.now number))) }
{
    let path = place(alloc, keyed, array, number)?;
    Err(JobRefusal::Repeat {
        path: Text::from_string(path),
    })
}

fn unknown(alloc: Global, array: &str, number: usize) -> Result<(), JobRefusal>
    ensures { Finds result (Some (UnknownResource (place_of false array.now number))) }
{
    let path = place(alloc, false, array, number)?;
    Err(JobRefusal::UnknownResource {
        path: Text::from_string(path),
    })
}

fn place(alloc: Global, keyed: bool, array: &str, number: usize) -> Result<String, AllocError>
    ensures { IfOk result (λ it. string_bytes it ≡ place_of keyed array.now number) }
{
    let path = numbered(alloc, array, number)?;
    if keyed {
        below(alloc, path.as_str(), "name")
    } else {
        Ok(path)
    }
}
