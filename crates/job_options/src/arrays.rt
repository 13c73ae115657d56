//! Arrays, whose elements have one rule.
ghost use Rattle.std.specs.Prelude.{◌≡◌, [], map};
ghost use Rattle.std.specs.Option.{option_map, option_map_or};
ghost use Rattle.job_options.specs.Found.{Finds};
ghost use Rattle.text_model.specs.Rules.{array_of, first_in, listed};
ghost use Rattle.toml.specs.Data.{as_array};
ghost use Rattle.toml.specs.View.{view};

use crate::paths::{field, numbered, range};
use crate::rule::Rule;
use std::alloc::Global;
use text_model::OptionsRefusal;
use toml::Value;

/// Looks at an array as a whole, and then at its elements one after another.
pub fn check_array<R: Rule>(
    alloc: Global,
    most: usize,
    element: &R,
    path: &str,
    value: &Value,
) -> Result<(), OptionsRefusal>
    ensures { Finds result (array_of most (R.told element.now) path.now (view value.now)) }
{
    let Some(items) = items_if(value) else {
        return field(alloc, path);
    };
    if items.len() > most {
        return range(alloc, path);
    }
    check_items(alloc, element, path, items)
}

fn check_items<R: Rule>(
    alloc: Global,
    element: &R,
    path: &str,
    items: &[Value],
) -> Result<(), OptionsRefusal>
    ensures { Finds result (first_in (R.told element.now) path.now (map view items.now)) }
{
    for (index, item) in items.iter().enumerate() {
        let here = numbered(alloc, path, index + 1)?;
        element.check(alloc, here.as_str(), item)?;
    }
    Ok(())
}

// The elements of an array.
fn items_if(value: &Value) -> Option<&[Value]>
    ensures { option_map (λ items. map view items.now) result
        ≡ option_map listed (as_array (view value.now)) }
{
    let items = value.as_array()?;
    Some(items.as_slice())
}

/// The elements of an array, and none of another value.
pub fn items_of(value: &Value) -> &[Value]
    ensures { map view result.now ≡ option_map_or listed (as_array (view value.now)) [] }
{
    match items_if(value) {
        Some(items) => items,
        None => &[],
    }
}
