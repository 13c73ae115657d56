//! The rules of values in options (docs/FORMATS.md, "Options").
ghost use Rattle.job_options.specs.Found.{Finds};
ghost use Rattle.job_options.specs.Told.{told_keys, told_of_one};
ghost use Rattle.text_model.specs.Rules.{whole_number, truth_value, any_text, a_name, one_of, a_table};
ghost use Rattle.text_model.specs.Keys.{table_with};
ghost use Rattle.toml.specs.View.{view};
ghost use Rattle.hive_model.specs.Same.{texts};

use crate::arrays::check_array;
use crate::key::Key;
use crate::names::{is_among, is_name};
use crate::paths::{field, no_name, range};
use crate::rule::Rule;
use crate::visit::visit;
use std::alloc::Global;
use text_model::OptionsRefusal;
use toml::Value;

/// The rule of a value that stands by itself.
#[derive(Clone, Copy)]
pub enum OneValue {
    /// A whole number from the least to the most.
    Number { least: u8, most: u8 },
    /// `true` or `false`.
    Truth,
    /// Any text.
    AnyText,
    /// A letter and at most 63 letters, digits or `_` behind it.
    Name,
    /// A text that is one of these words.
    Word(&'static [&'static str]),
    /// A table, which is visited later.
    Table,
}

/// The rule of a table that is visited at once, by these keys.
#[derive(Clone, Copy)]
pub struct TableOf {
    pub keys: &'static [Key<OneValue>],
}

/// The rule of any value.
#[derive(Clone, Copy)]
pub enum AnyValue {
    One(OneValue),
    /// An array of at most so many values.
    Array { most: usize, element: OneValue },
    /// An array of at most so many tables, which are visited at once.
    Tables { most: usize, element: TableOf },
}

impl Rule for OneValue {
    ghost told = { told_of_one };

    fn check(&self, alloc: Global, path: &str, value: &Value) -> Result<(), OptionsRefusal> {
        match self {
            OneValue::Number { least, most } => check_number(alloc, *least, *most, path, value),
            OneValue::Truth => check_truth(alloc, path, value),
            OneValue::AnyText => check_text(alloc, path, value),
            OneValue::Name => check_name(alloc, path, value),
            OneValue::Word(words) => check_word(alloc, words, path, value),
            OneValue::Table => check_table(alloc, path, value),
        }
    }
}

impl Rule for TableOf {
    ghost told = { λ it. table_with (told_keys told_of_one it.keys.now) };

    fn check(&self, alloc: Global, path: &str, value: &Value) -> Result<(), OptionsRefusal> {
        match value.as_table() {
            Some(table) => visit(alloc, self.keys, path, table),
            None => field(alloc, path),
        }
    }
}

impl Rule for AnyValue {
    ghost use Rattle.job_options.specs.Told.{told_of_any};

    ghost told = { told_of_any };

    fn check(&self, alloc: Global, path: &str, value: &Value) -> Result<(), OptionsRefusal> {
        match self {
            AnyValue::One(rule) => rule.check(alloc, path, value),
            AnyValue::Array { most, element } => check_array(alloc, *most, element, path, value),
            AnyValue::Tables { most, element } => check_array(alloc, *most, element, path, value),
        }
    }
}

fn check_number(
    alloc: Global,
    least: u8,
    most: u8,
    path: &str,
    value: &Value,
) -> Result<(), OptionsRefusal>
    ensures { Finds result (whole_number least most path.now (view value.now)) }
{
    let Some(number) = value.as_integer() else {
        return field(alloc, path);
    };
    if i64::from(least) <= number && number <= i64::from(most) {
        Ok(())
    } else {
        range(alloc, path)
    }
}

fn check_truth(alloc: Global, path: &str, value: &Value) -> Result<(), OptionsRefusal>
    ensures { Finds result (truth_value path.now (view value.now)) }
{
    match value.as_bool() {
        Some(_) => Ok(()),
        None => field(alloc, path),
    }
}

fn check_text(alloc: Global, path: &str, value: &Value) -> Result<(), OptionsRefusal>
    ensures { Finds result (any_text path.now (view value.now)) }
{
    match value.as_str() {
        Some(_) => Ok(()),
        None => field(alloc, path),
    }
}

fn check_name(alloc: Global, path: &str, value: &Value) -> Result<(), OptionsRefusal>
    ensures { Finds result (a_name path.now (view value.now)) }
{
    let Some(text) = value.as_str() else {
        return field(alloc, path);
    };
    if is_name(text.as_bytes()) {
        Ok(())
    } else {
        no_name(alloc, path)
    }
}

fn check_word(
    alloc: Global,
    words: &[&str],
    path: &str,
    value: &Value,
) -> Result<(), OptionsRefusal>
    ensures { Finds result (one_of (texts words.now) path.now (view value.now)) }
{
    let Some(text) = value.as_str() else {
        return field(alloc, path);
    };
    if is_among(words, text) {
        Ok(())
    } else {
        range(alloc, path)
    }
}

fn check_table(alloc: Global, path: &str, value: &Value) -> Result<(), OptionsRefusal>
    ensures { Finds result (a_table path.now (view value.now)) }
{
    match value.as_table() {
        Some(_) => Ok(()),
        None => field(alloc, path),
    }
}
