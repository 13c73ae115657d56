//! Visiting a table by the list of its keys.
ghost use Rattle.std.specs.Prelude.{◌≡◌, option_map};
ghost use Rattle.job_options.specs.Found.{Finds};
ghost use Rattle.job_options.specs.Told.{told_absent, told_key, told_keys};
ghost use Rattle.text_model.specs.Keys.{has_only as has_only_keys, names_of, refusal_of_absent, refusal_of_key, visit as visit_of};
ghost use Rattle.text_model.specs.Steps.{find_map};
ghost use Rattle.text_model.specs.Names.{is_among};
ghost use Rattle.toml.specs.Data.{get_member};
ghost use Rattle.toml.specs.View.{view, table_view};

use crate::key::{Absent, Key};
use crate::paths::{below, missing, unknown};
use crate::rule::Rule;
use std::alloc::Global;
use text_model::OptionsRefusal;
use toml::{Table, Value};

/// Visits a table whose keys stand behind the path. The errors are the first refusal, and that
/// memory ran out.
#[tactic(auto, unfolding(text_model::specs::Keys::visit))]
pub fn visit<R: Rule>(
    alloc: Global,
    keys: &[Key<R>],
    path: &str,
    table: &Table,
) -> Result<(), OptionsRefusal>
    ensures { Finds result (visit_of (told_keys R.told keys.now) path.now (table_view table.now)) }
{
    if has_only(keys, table) {
        check_keys(alloc, keys, path, table)
    } else {
        unknown(alloc, path)
    }
}

// Whether each key of the table is one of these.
fn has_only<R: Rule>(keys: &[Key<R>], table: &Table) -> bool
    ensures { result ≡ has_only_keys (names_of (told_keys R.told keys.now)) (table_view table.now) }
{
    'members: for (name, _value) in table.iter() {
        if !is_known(keys, name.as_str()) {
            return false;
        }
    }
    true
}

fn is_known<R: Rule>(keys: &[Key<R>], name: &str) -> bool
    ensures { result ≡ is_among (names_of (told_keys R.told keys.now)) name.now }
{
    for key in keys {
        if name == key.name {
            return true;
        }
    }
    false
}

fn check_keys<R: Rule>(
    alloc: Global,
    keys: &[Key<R>],
    path: &str,
    table: &Table,
) -> Result<(), OptionsRefusal>
    ensures { Finds result
        (find_map (refusal_of_key path.now (table_view table.now)) (told_keys R.told keys.now)) }
{
    for key in keys {
        check_key(alloc, key, path, table)?;
    }
    Ok(())
}

#[tactic(auto, unfolding(text_model::specs::Keys::refusal_of_key))]
fn check_key<R: Rule>(
    alloc: Global,
    key: &Key<R>,
    path: &str,
    table: &Table,
) -> Result<(), OptionsRefusal>
    ensures { Finds result
        (refusal_of_key path.now (table_view table.now) (told_key R.told key.now)) }
{
    let here = below(alloc, path, key.name)?;
    match value_in(table, key.name) {
        Some(value) => key.rule.check(alloc, here.as_str(), value),
        None => check_absent(alloc, &key.absent, here.as_str()),
    }
}

fn check_absent(alloc: Global, absent: &Absent, path: &str) -> Result<(), OptionsRefusal>
    ensures { Finds result (refusal_of_absent path.now (told_absent absent.now)) }
{
    match absent {
        Absent::Required => missing(alloc, path),
        Absent::Optional => Ok(()),
        Absent::Number(_) => Ok(()),
        Absent::Truth(_) => Ok(()),
        Absent::Empty => Ok(()),
    }
}

/// The value that a table has at a key.
pub fn value_in<'a>(table: &'a Table, key: &str) -> Option<&'a Value>
    ensures { option_map (λ value. view value.now) result
        ≡ get_member key.now (table_view table.now) }
{
    table.get(key)
}
