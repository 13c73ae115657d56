//! The options of a text.
ghost use Rattle.std.specs.Prelude.{◌≡◌, [], true, false, IfOk, MatchOption};
ghost use Rattle.std.specs.Str.{is_utf8};
ghost use Rattle.job_options.specs.Found.{Finds, ReadsTables};
ghost use Rattle.job_options.specs.Known.{known_language};
ghost use Rattle.job_options.specs.Uncut.{IsUncut};
ghost use Rattle.text_model.specs.Gives.{Gives};
ghost use Rattle.text_model.specs.Keys.{visit as visit_of};
ghost use Rattle.text_model.specs.Options.{read_of, read_tree as read_told};
ghost use Rattle.text_model.specs.Shape.{HasShape};
ghost use Rattle.text_model.specs.TableValues.{algorithm_of, raw_of, resource_of, sequence_of};
ghost use Rattle.text_model.specs.Tables.{algorithm_keys, algorithm_tables, raw_keys, raw_tables, resource_keys, resource_tables, sequence_keys, sequence_tables, top_keys};
ghost use Rattle.text_model.specs.declared.options_refusal.OptionsRefusal.TheVariants.{NoMemory};
ghost use Rattle.toml.specs.View.{table_view};

use crate::row::read_rows;
use crate::tables::{
    ALGORITHM_TABLES, RAW_TABLES, RESOURCE_TABLES, SEQUENCE_TABLES, TOP, TOP_KEYS,
};
use crate::values::{tables_at, text_at};
use crate::visit::visit;
use hive_model::{Many, Raw, Resource, Text};
use std::alloc::Global;
use text_model::{FIRST_VERSION, OptionsRefusal, RawAlgorithm, RawOptions, RawSequence};
use toml::Table;

/// The raw options of a text of version 1, with the defaults filled in (docs/FORMATS.md, "Options").
/// The errors are the first refusal of its shape, in the order of docs/FORMATS.md, "Refusals of
/// options", and that memory ran out. How long the text may be is looked at where it is fetched.
pub fn read(alloc: Global, bytes: &[u8]) -> Result<RawOptions, OptionsRefusal>
    ensures options { Gives NoMemory result (read_of known_language bytes.now) }
    ensures shape { IfOk result HasShape }
    ensures uncut { IfOk result IsUncut }
{
    read_text(alloc, bytes)
}

#[tactic(auto, unfolding(text_model::specs::Options::read_of))]
fn read_text(alloc: Global, bytes: &[u8]) -> Result<RawOptions, OptionsRefusal>
    ensures { Gives NoMemory result (read_of known_language bytes.now) }
{
    let Some(text) = text_of(bytes) else {
        return Err(OptionsRefusal::Toml);
    };
    match toml::table_from_str(alloc, text) {
        Ok(tree) => read_tree(alloc, &tree),
        Err(fault) if fault.is_memory() => Err(OptionsRefusal::NoMemory),
        Err(_) => Err(OptionsRefusal::Toml),
    }
}

fn text_of(bytes: &[u8]) -> Option<&str>
    ensures { MatchOption result (is_utf8 bytes.now ≡ false)
        (λ text. (text.now ≡ bytes.now) × (is_utf8 bytes.now ≡ true)) }
{
    match str::from_utf8(bytes) {
        Ok(text) => Some(text),
        Err(_) => None,
    }
}

#[tactic(auto, using(crate::proofs::Trees::tree_steps), unfolding(text_model::specs::Options::options_of))]
fn read_tree(alloc: Global, tree: &Table) -> Result<RawOptions, OptionsRefusal>
    ensures { Gives NoMemory result (read_told known_language (table_view tree.now)) }
{
    visit_top(alloc, tree)?;
    let raws = read_raws(alloc, tree)?;
    let resources = read_resources(alloc, tree)?;
    let algorithms = read_algorithms(alloc, tree)?;
    let sequences = read_sequences(alloc, tree)?;
    Ok(RawOptions {
        version: FIRST_VERSION,
        top: Text::from_str(alloc, text_at(&TOP, tree))?,
        raws,
        resources,
        algorithms,
        sequences,
    })
}

#[tactic(auto, unfolding(text_model::specs::Tables::top_keys))]
fn visit_top(alloc: Global, tree: &Table) -> Result<(), OptionsRefusal>
    ensures { Finds result
        (visit_of (top_keys known_language FIRST_VERSION) [] (table_view tree.now)) }
{
    visit(alloc, TOP_KEYS, "", tree)
}

#[tactic(auto, unfolding(text_model::specs::Options::refusal_of_tables))]
fn read_raws(alloc: Global, tree: &Table) -> Result<Many<Raw>, OptionsRefusal>
    ensures { ReadsTables result (table_view tree.now) (raw_tables, raw_keys) raw_of }
{
    let tables = tables_at(alloc, &RAW_TABLES, tree)?;
    read_rows(alloc, RAW_TABLES.name, tables.as_slice())
}

#[tactic(auto, unfolding(text_model::specs::Options::refusal_of_tables))]
fn read_resources(alloc: Global, tree: &Table) -> Result<Many<Resource>, OptionsRefusal>
    ensures { ReadsTables result (table_view tree.now) (resource_tables, resource_keys) resource_of }
{
    let tables = tables_at(alloc, &RESOURCE_TABLES, tree)?;
    read_rows(alloc, RESOURCE_TABLES.name, tables.as_slice())
}

#[tactic(auto, unfolding(text_model::specs::Options::refusal_of_tables))]
fn read_algorithms(alloc: Global, tree: &Table) -> Result<Many<RawAlgorithm>, OptionsRefusal>
    ensures { ReadsTables result (table_view tree.now)
        (algorithm_tables FIRST_VERSION, algorithm_keys) algorithm_of }
{
    let tables = tables_at(alloc, &ALGORITHM_TABLES, tree)?;
    read_rows(alloc, ALGORITHM_TABLES.name, tables.as_slice())
}

#[tactic(auto, unfolding(text_model::specs::Options::refusal_of_tables))]
fn read_sequences(alloc: Global, tree: &Table) -> Result<Many<RawSequence>, OptionsRefusal>
    ensures { ReadsTables result (table_view tree.now)
        (sequence_tables, sequence_keys known_language FIRST_VERSION) (sequence_of FIRST_VERSION) }
{
    let tables = tables_at(alloc, &SEQUENCE_TABLES, tree)?;
    read_rows(alloc, SEQUENCE_TABLES.name, tables.as_slice())
}
