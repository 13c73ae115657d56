//! What the tables of options say.
ghost use Rattle.std.specs.Prelude.{◌≡◌, ◌≤◌, map, IfOk};
ghost use Rattle.std.specs.Option.{option_map};
ghost use Rattle.text_model.specs.Keys.{visit as visit_of};
ghost use Rattle.text_model.specs.TableValues.{algorithm_of, kind_at, number_at as number_told, output_of, raw_of, resource_of, sequence_of, text_if_at as text_told_if};
ghost use Rattle.text_model.specs.Tables.{algorithm_keys, cardinality_key, filter_key, raw_keys, resource_keys, sequence_keys, units_key};
ghost use Rattle.job_options.specs.Found.{Finds};
ghost use Rattle.job_options.specs.Known.{known_language};
ghost use Rattle.job_options.specs.Seen.{tables_seen};
ghost use Rattle.toml.specs.View.{table_view};

use crate::row::Row;
use crate::tables::{
    ALGORITHM_KEYS, CARDINALITY, CUT, EXPRESSION, FILTER, FULL_NAME, IGNORE_FILTER, INPUTS, INVERT,
    KIND, MEMBERS, MODE_OR, NAME, OUTPUT, RAW_KEYS, RESOURCE_KEYS, RESOURCES, SEQUENCE_KEYS,
    SEQUENTIAL, SHORT_CIRCUIT, UNITS,
};
use crate::values::{flag_at, number_at, tables_at, text_at, text_if_at, texts_at};
use crate::visit::visit;
use hive_model::{Kind, MOST_INSTANCES, MOST_UNITS, Many, Raw, Resource, Text};
use std::alloc::{AllocError, Global};
use text_model::{FIRST_VERSION, OptionsRefusal, RawAlgorithm, RawOutput, RawSequence};
use toml::Table;

impl Row for Raw {
    ghost keys = { raw_keys };

    ghost said = { raw_of };

    fn read(alloc: Global, path: &str, table: &Table) -> Result<Raw, OptionsRefusal> {
        visit(alloc, RAW_KEYS, path, table)?;
        Ok(raw(alloc, table)?)
    }
}

impl Row for Resource {
    ghost keys = { resource_keys };

    ghost said = { resource_of };

    #[tactic(auto, using(crate::proofs::Ranges::units_fit))]
    fn read(alloc: Global, path: &str, table: &Table) -> Result<Resource, OptionsRefusal> {
        visit(alloc, RESOURCE_KEYS, path, table)?;
        Ok(resource(alloc, table)?)
    }
}

impl Row for RawAlgorithm {
    ghost keys = { algorithm_keys };

    ghost said = { algorithm_of };

    #[tactic(auto, using(crate::proofs::Ranges::cardinality_fits))]
    fn read(alloc: Global, path: &str, table: &Table) -> Result<RawAlgorithm, OptionsRefusal> {
        visit_algorithm(alloc, path, table)?;
        Ok(algorithm(alloc, table)?)
    }
}

impl Row for RawSequence {
    ghost use Rattle.text_model.specs.declared.limits.TheConstants.{FIRST_VERSION};

    ghost keys = { sequence_keys known_language FIRST_VERSION };

    ghost said = { sequence_of FIRST_VERSION };

    #[tactic(auto, unfolding(text_model::specs::Tables::sequence_keys))]
    fn read(alloc: Global, path: &str, table: &Table) -> Result<RawSequence, OptionsRefusal> {
        visit(alloc, SEQUENCE_KEYS, path, table)?;
        Ok(sequence(alloc, table)?)
    }
}

fn visit_algorithm(alloc: Global, path: &str, table: &Table) -> Result<(), OptionsRefusal>
    ensures { Finds result (visit_of algorithm_keys path.now (table_view table.now)) }
{
    visit(alloc, ALGORITHM_KEYS, path, table)
}

fn kind(table: &Table) -> Kind
    ensures { result ≡ kind_at (table_view table.now) }
{
    if text_at(&KIND, table) == "list" {
        Kind::List
    } else {
        Kind::Num
    }
}

fn raw(alloc: Global, table: &Table) -> Result<Raw, AllocError>
    ensures { IfOk result (λ it. it ≡ raw_of (table_view table.now)) }
{
    Ok(Raw {
        name: Text::from_str(alloc, text_at(&NAME, table))?,
        kind: kind(table),
    })
}

fn resource(alloc: Global, table: &Table) -> Result<Resource, AllocError>
    requires { number_told units_key (table_view table.now) ≤ MOST_UNITS }
    ensures { IfOk result (λ it. it ≡ resource_of (table_view table.now)) }
{
    Ok(Resource {
        name: Text::from_str(alloc, text_at(&NAME, table))?,
        units: number_at(&UNITS, table) as u8,
    })
}

fn output(alloc: Global, table: &Table) -> Result<RawOutput, AllocError>
    ensures { IfOk result (λ it. it ≡ output_of (table_view table.now)) }
{
    Ok(RawOutput {
        name: Text::from_str(alloc, text_at(&NAME, table))?,
        kind: kind(table),
        value: Text::from_str(alloc, text_at(&EXPRESSION, table))?,
    })
}

fn outputs(alloc: Global, tables: &[&Table]) -> Result<Many<RawOutput>, AllocError>
    ensures { IfOk result (λ it. it.items ≡ map output_of (tables_seen tables.now)) }
{
    let mut found = Vec::with_capacity(alloc, tables.len())?;
    for table in tables {
        found.push(output(alloc, table)?)?;
    }
    Ok(Many::from_vec(found))
}

#[tactic(auto, unfolding(text_model::specs::TableValues::algorithm_of))]
fn algorithm(alloc: Global, table: &Table) -> Result<RawAlgorithm, AllocError>
    requires { number_told cardinality_key (table_view table.now) ≤ MOST_INSTANCES }
    ensures { IfOk result (λ it. it ≡ algorithm_of (table_view table.now)) }
{
    let tables = tables_at(alloc, &OUTPUT, table)?;
    Ok(RawAlgorithm {
        name: Text::from_str(alloc, text_at(&FULL_NAME, table))?,
        cardinality: number_at(&CARDINALITY, table) as u8,
        resources: texts_at(alloc, &RESOURCES, table)?,
        inputs: texts_at(alloc, &INPUTS, table)?,
        outputs: outputs(alloc, tables.as_slice())?,
        filter: filter(alloc, table)?,
    })
}

fn filter(alloc: Global, table: &Table) -> Result<Option<Text>, AllocError>
    ensures { IfOk result (λ it. it ≡ text_told_if filter_key (table_view table.now)) }
{
    match text_if_at(&FILTER, table) {
        Some(text) => Ok(Some(Text::from_str(alloc, text)?)),
        None => Ok(None),
    }
}

#[tactic(auto, unfolding(text_model::specs::TableValues::sequence_of))]
fn sequence(alloc: Global, table: &Table) -> Result<RawSequence, AllocError>
    ensures { IfOk result (λ it. it ≡ sequence_of FIRST_VERSION (table_view table.now)) }
{
    Ok(RawSequence {
        name: Text::from_str(alloc, text_at(&FULL_NAME, table))?,
        members: texts_at(alloc, &MEMBERS, table)?,
        mode_or: flag_at(&MODE_OR, table),
        short_circuit: flag_at(&SHORT_CIRCUIT, table),
        sequential: flag_at(&SEQUENTIAL, table),
        invert: flag_at(&INVERT, table),
        ignore_filter: flag_at(&IGNORE_FILTER, table),
        cut: flag_at(&CUT, table),
    })
}
