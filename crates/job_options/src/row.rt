//! The tables of an array, one after another.
ghost use Rattle.std.specs.Prelude.{map};
ghost use Rattle.job_options.specs.Found.{FindsOr, FindsOrLists, refusal_from};
ghost use Rattle.text_model.specs.Keys.{visit as visit_of};
ghost use Rattle.job_options.specs.Seen.{tables_seen};
ghost use Rattle.toml.specs.View.{table_view};

use crate::paths::numbered;
use hive_model::Many;
use std::alloc::Global;
use text_model::OptionsRefusal;
use toml::Table;

/// What a table of an array says.
pub trait Row: Sized {
    ghost use Rattle.std.specs.Prelude.{List};
    ghost use Rattle.text_model.specs.Keys.{Key as KeyTold};
    ghost use Rattle.toml.specs.Data.{Members};

    /// The keys of the table.
    ghost keys: { List KeyTold };

    /// What it says where nothing in it is refused.
    ghost said: { Members → Self };

    /// Visits the table whose keys stand behind a path, and reads it. The errors are the first
    /// refusal, and that memory ran out.
    fn read(alloc: Global, path: &str, table: &Table) -> Result<Self, OptionsRefusal>
        ensures { FindsOr result
            (visit_of keys path.now (table_view table.now)) (said (table_view table.now)) };
}

/// Reads tables, which stand behind the path of their array and are numbered from 1. The errors are
/// the first refusal, and that memory ran out.
pub fn read_rows<T: Row + Drop>(
    alloc: Global,
    array: &str,
    tables: &[&Table],
) -> Result<Many<T>, OptionsRefusal>
    ensures { FindsOrLists result
        (refusal_from T.keys array.now 1 (tables_seen tables.now))
        (map T.said (tables_seen tables.now)) }
{
    let mut rows = Vec::with_capacity(alloc, tables.len())?;
    for (index, table) in tables.iter().enumerate() {
        let path = numbered(alloc, array, index + 1)?;
        let row = T::read(alloc, path.as_str(), table)?;
        rows.push(row)?;
    }
    Ok(Many::from_vec(rows))
}
