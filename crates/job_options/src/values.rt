//! What a table says at a key: the value that is there, or else the one that is meant.
ghost use Rattle.std.specs.Prelude.{◌≡◌, false, map, nat_abs, unwrap_or, IfOk, filter_map};
ghost use Rattle.std.specs.Option.{option_and_then, option_map, option_map_or};
ghost use Rattle.job_options.specs.Seen.{tables_seen};
ghost use Rattle.job_options.specs.Told.{told_absent, told_key};
ghost use Rattle.text_model.specs.Keys.{default_of};
ghost use Rattle.text_model.specs.TableValues.{flag_at as flag_told, number_at as number_told, tables_at as tables_told, text_at as text_told, text_if_at as text_told_if, texts_at as texts_told, values_at};
ghost use Rattle.toml.specs.Data.{as_bool, as_integer, as_str, as_table};
ghost use Rattle.toml.specs.View.{table_view, view};

use crate::arrays::items_of;
use crate::key::{Absent, Key};
use crate::rule::Rule;
use crate::visit::value_in;
use hive_model::{Many, Text};
use std::alloc::{AllocError, Global};
use toml::{Table, Value};

/// The number at a key, without its sign.
pub fn number_at<R: Rule>(key: &Key<R>, table: &Table) -> u64
    ensures { result ≡ number_told (told_key R.told key.now) (table_view table.now) }
{
    match value_in(table, key.name) {
        Some(value) => number_of(value),
        None => number_meant(&key.absent),
    }
}

fn number_of(value: &Value) -> u64
    ensures { result ≡ option_map_or nat_abs (as_integer (view value.now)) 0 }
{
    match value.as_integer() {
        Some(number) => number.unsigned_abs(),
        None => 0,
    }
}

fn number_meant(absent: &Absent) -> u64
    ensures { result
        ≡ option_map_or nat_abs (option_and_then as_integer (default_of (told_absent absent.now))) 0 }
{
    match absent {
        Absent::Number(number) => u64::from(*number),
        Absent::Required | Absent::Optional | Absent::Truth(_) | Absent::Empty => 0,
    }
}

/// The truth value at a key.
pub fn flag_at<R: Rule>(key: &Key<R>, table: &Table) -> bool
    ensures { result ≡ flag_told (told_key R.told key.now) (table_view table.now) }
{
    match value_in(table, key.name) {
        Some(value) => flag_of(value),
        None => flag_meant(&key.absent),
    }
}

fn flag_of(value: &Value) -> bool
    ensures { result ≡ unwrap_or (as_bool (view value.now)) false }
{
    match value.as_bool() {
        Some(flag) => flag,
        None => false,
    }
}

fn flag_meant(absent: &Absent) -> bool
    ensures { result
        ≡ unwrap_or (option_and_then as_bool (default_of (told_absent absent.now))) false }
{
    match absent {
        Absent::Truth(flag) => *flag,
        Absent::Required | Absent::Optional | Absent::Number(_) | Absent::Empty => false,
    }
}

/// The text at a key, where there is one.
pub fn text_if_at<'a, R: Rule>(key: &Key<R>, table: &'a Table) -> Option<&'a str>
    ensures { option_map (λ text. text.now) result
        ≡ text_told_if (told_key R.told key.now) (table_view table.now) }
{
    match value_in(table, key.name) {
        Some(value) => value.as_str(),
        None => None,
    }
}

/// The text at a key, or the empty one.
pub fn text_at<'a, R: Rule>(key: &Key<R>, table: &'a Table) -> &'a str
    ensures { result.now ≡ text_told (told_key R.told key.now) (table_view table.now) }
{
    match text_if_at(key, table) {
        Some(text) => text,
        None => "",
    }
}

/// The elements of the array at a key.
pub fn items_at<'a, R: Rule>(key: &Key<R>, table: &'a Table) -> &'a [Value]
    ensures { map view result.now ≡ values_at (told_key R.told key.now) (table_view table.now) }
{
    match value_in(table, key.name) {
        Some(value) => items_of(value),
        None => &[],
    }
}

/// The texts of the array at a key. The only error is running out of memory.
pub fn texts_at<R: Rule>(
    alloc: Global,
    key: &Key<R>,
    table: &Table,
) -> Result<Many<Text>, AllocError>
    ensures { IfOk result (λ it. it.items
        ≡ texts_told (told_key R.told key.now) (table_view table.now)) }
{
    texts_of(alloc, items_at(key, table))
}

fn texts_of(alloc: Global, items: &[Value]) -> Result<Many<Text>, AllocError>
    ensures { IfOk result (λ it. it.items ≡ filter_map as_str (map view items.now)) }
{
    let mut found = Vec::with_capacity(alloc, items.len())?;
    for item in items {
        let Some(text) = item.as_str() else {
            continue;
        };
        found.push(Text::from_str(alloc, text)?)?;
    }
    Ok(Many::from_vec(found))
}

/// The tables of the array at a key. The only error is running out of memory.
pub fn tables_at<'a, R: Rule>(
    alloc: Global,
    key: &Key<R>,
    table: &'a Table,
) -> Result<Vec<&'a Table>, AllocError>
    ensures { IfOk result (λ it. tables_seen it.items
        ≡ tables_told (told_key R.told key.now) (table_view table.now)) }
{
    tables_of(alloc, items_at(key, table))
}

fn tables_of(alloc: Global, items: &[Value]) -> Result<Vec<&Table>, AllocError>
    ensures { IfOk result (λ it. tables_seen it.items
        ≡ filter_map as_table (map view items.now)) }
{
    let mut found = Vec::with_capacity(alloc, items.len())?;
    for item in items {
        let Some(table) = item.as_table() else {
            continue;
        };
        found.push(table)?;
    }
    Ok(found)
}
