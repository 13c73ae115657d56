//! Paths of values, and the refusals at them (docs/FORMATS.md, "Paths").
ghost use Rattle.std.specs.Prelude.{◌≡◌, Some, IfOk, decimal, string_bytes};
ghost use Rattle.job_options.specs.Found.{Finds};
ghost use Rattle.text_model.specs.ValuePaths.{below as path_below, numbered as path_numbered, table_path as path_of_table};
ghost use Rattle.text_model.specs.declared.options_refusal.OptionsRefusal.TheVariants.{Unknown, Field, Range, Name, Missing};

use hive_model::Text;
use std::alloc::{AllocError, Global};
use text_model::OptionsRefusal;

/// A key behind a path, which is empty at the top level. The only error is running out of memory.
pub fn below(alloc: Global, path: &str, key: &str) -> Result<String, AllocError>
    ensures { IfOk result (λ it. string_bytes it ≡ path_below path.now key.now) }
{
    if path.is_empty() {
        return String::from_str(alloc, key);
    }
    format!(in alloc; "{path}.{key}")
}

/// A number behind a path. The only error is running out of memory.
pub fn numbered(alloc: Global, path: &str, number: usize) -> Result<String, AllocError>
    ensures { IfOk result (λ it. string_bytes it ≡ path_numbered path.now number) }
{
    if path.is_empty() {
        return format!(in alloc; "{number}");
    }
    format!(in alloc; "{path}.{number}")
}

/// Refuses a table for a key that isn't known.
pub fn unknown(alloc: Global, path: &str) -> Result<(), OptionsRefusal>
    ensures { Finds result (Some (Unknown (path_of_table path.now))) }
{
    let path = if path.is_empty() { "options" } else { path };
    Err(OptionsRefusal::Unknown {
        path: Text::from_str(alloc, path)?,
    })
}

/// Refuses a table for a key that isn't there.
pub fn missing(alloc: Global, path: &str) -> Result<(), OptionsRefusal>
    ensures { Finds result (Some (Missing path.now)) }
{
    Err(OptionsRefusal::Missing {
        path: Text::from_str(alloc, path)?,
    })
}

/// Refuses a value of another kind.
pub fn field(alloc: Global, path: &str) -> Result<(), OptionsRefusal>
    ensures { Finds result (Some (Field path.now)) }
{
    Err(OptionsRefusal::Field {
        path: Text::from_str(alloc, path)?,
    })
}

/// Refuses a text that is no name.
pub fn no_name(alloc: Global, path: &str) -> Result<(), OptionsRefusal>
    ensures { Finds result (Some (Name path.now)) }
{
    Err(OptionsRefusal::Name {
        path: Text::from_str(alloc, path)?,
    })
}

/// Refuses what is out of range.
pub fn range(alloc: Global, path: &str) -> Result<(), OptionsRefusal>
    ensures { Finds result (Some (Range path.now)) }
{
    Err(OptionsRefusal::Range {
        path: Text::from_str(alloc, path)?,
    })
}
