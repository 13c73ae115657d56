//! What an options text says, before names become numbers and texts expressions.
use hive_model::{Kind, Many, Raw, Resource, Text};
use std::marker::Model;

/// The tables of an options text, with the defaults filled in (docs/FORMATS.md, "Options").
#[derive(Debug, Drop)]
pub struct RawOptions {
    /// [`FIRST_VERSION`](crate::FIRST_VERSION) or [`SECOND_VERSION`](crate::SECOND_VERSION).
    pub version: u8,
    /// The name of the sequence at the top.
    pub top: Text,
    /// In written order, as the three other lists.
    pub raws: Many<Raw>,
    pub resources: Many<Resource>,
    pub algorithms: Many<RawAlgorithm>,
    pub sequences: Many<RawSequence>,
}

/// An algorithm, which names what it needs.
#[derive(Debug, Drop)]
pub struct RawAlgorithm {
    pub name: Text,
    /// The number of instances, from 0 to [`MOST_INSTANCES`](hive_model::MOST_INSTANCES).
    pub cardinality: u8,
    /// The names of the resources of which an execution takes one unit each.
    pub resources: Many<Text>,
    /// The names of the handles that it takes.
    pub inputs: Many<Text>,
    pub outputs: Many<RawOutput>,
    /// The text of an expression, where there is one.
    pub filter: Option<Text>,
}

/// An output, and the text of its expression.
#[derive(Debug, PartialEq, Eq, Drop)]
pub struct RawOutput {
    pub name: Text,
    pub kind: Kind,
    /// The text of an expression of that kind.
    pub value: Text,
}

/// A sequence, which names its members (docs/FORMATS.md, "Options").
#[derive(Debug, Drop)]
pub struct RawSequence {
    pub name: Text,
    /// The names of algorithms and of other sequences.
    pub members: Many<Text>,
    /// Whether the node is an OR; else it is an AND.
    pub mode_or: bool,
    pub short_circuit: bool,
    pub sequential: bool,
    pub invert: bool,
    pub ignore_filter: bool,
    pub cut: bool,
}

impl Model for RawOptions {
    ghost use Rattle.text_model.specs.RawOptions.{RawOptions as Shown};

    ghost Value = { Shown };

    ghost view = { λ it. record { version = it.version; top = it.top; raws = it.raws.items; resources = it.resources.items; algorithms = it.algorithms.items; sequences = it.sequences.items } };
}

impl Model for RawAlgorithm {
    ghost use Rattle.text_model.specs.RawOptions.{RawAlgorithm as Shown};

    ghost Value = { Shown };

    ghost view = { λ it. record { name = it.name; cardinality = it.cardinality; resources = it.resources.items; inputs = it.inputs.items; outputs = it.outputs.items; filter = it.filter } };
}

impl Model for RawSequence {
    ghost use Rattle.text_model.specs.RawOptions.{RawSequence as Shown};

    ghost Value = { Shown };

    ghost view = { λ it. record { name = it.name; members = it.members.items; mode_or = it.mode_or; short_circuit = it.short_circuit; sequential = it.sequential; invert = it.invert; ignore_filter = it.ignore_filter; cut = it.cut } };
}
