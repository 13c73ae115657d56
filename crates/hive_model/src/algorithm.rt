//! Algorithms, and what they declare: raw handles, resources and outputs.
ghost use Rattle.std.specs.Prelude.{◌≡◌};
ghost use Rattle.hive_model.specs.Algorithm.{plain_algorithm};

use crate::{Duplicate, Expr, Kind, Many, Text};
use std::alloc::{AllocError, Global};
use std::marker::Model;

/// A data handle that the event record produces.
#[derive(Debug, PartialEq, Eq, Drop)]
pub struct Raw {
    pub name: Text,
    pub kind: Kind,
}

/// A named resource, of which `units` executions at a time may use one each.
#[derive(Debug, PartialEq, Eq, Drop)]
pub struct Resource {
    pub name: Text,
    /// 1 to [`MOST_UNITS`](crate::MOST_UNITS).
    pub units: u8,
}

impl Duplicate for Raw {
    fn copy(&self, alloc: Global) -> Result<Raw, AllocError> {
        Ok(Raw {
            name: self.name.copy(alloc)?,
            kind: self.kind,
        })
    }
}

impl Duplicate for Resource {
    fn copy(&self, alloc: Global) -> Result<Resource, AllocError> {
        Ok(Resource {
            name: self.name.copy(alloc)?,
            units: self.units,
        })
    }
}

/// A data handle that an algorithm produces, and how its value is computed.
#[derive(Debug, PartialEq, Eq, Drop)]
pub struct Output {
    pub name: Text,
    pub kind: Kind,
    pub value: Expr,
}

impl Duplicate for Output {
    fn copy(&self, alloc: Global) -> Result<Output, AllocError> {
        Ok(Output {
            name: self.name.copy(alloc)?,
            kind: self.kind,
            value: self.value.copy(alloc)?,
        })
    }
}

/// A unit of work on one event. Handles and resources are named by number
/// (docs/PROCESSING.md, "Handles").
#[derive(Debug, Drop)]
pub struct Algorithm {
    pub name: Text,
    /// The number of instances: 1 to [`MOST_INSTANCES`](crate::MOST_INSTANCES), or 0 for a re-entrant
    /// algorithm.
    pub cardinality: u8,
    /// The numbers, from 0, of the resources of which an execution takes one unit each.
    pub resources: Many<u16>,
    /// The numbers, from 0, of the handles that it takes.
    pub inputs: Many<u16>,
    /// The handle of the first output; the others follow.
    pub first_output: u16,
    pub outputs: Many<Output>,
    /// An execution is accepted where this is absent or isn't 0, and rejected where it is 0.
    pub filter: Option<Expr>,
}

impl Model for Algorithm {
    ghost use Rattle.hive_model.specs.Algorithm.{Algorithm as Shown};

    ghost Value = { Shown };

    ghost view = { λ it. record { name = it.name; cardinality = it.cardinality; resources = it.resources.items; inputs = it.inputs.items; first_output = it.first_output; outputs = it.outputs.items; filter = it.filter } };
}

impl Algorithm {
    /// An algorithm of one instance without inputs, outputs, resources and filter. The first output that
    /// it may get has that handle.
    pub fn new(alloc: Global, name: Text, first_output: u16) -> Algorithm
        ensures { result ≡ plain_algorithm name first_output }
    {
        Algorithm {
            name,
            cardinality: 1,
            resources: Many::new(alloc),
            inputs: Many::new(alloc),
            first_output,
            outputs: Many::new(alloc),
            filter: None,
        }
    }

    /// The handles that it takes, in written order.
    pub fn inputs(&self) -> &[u16]
        ensures { result.now ≡ self.now.inputs }
    {
        self.inputs.as_slice()
    }

    /// What it computes, in written order.
    pub fn outputs(&self) -> &[Output]
        ensures { result.now ≡ self.now.outputs }
    {
        self.outputs.as_slice()
    }
}

impl Duplicate for u16 {
    fn copy(&self, _alloc: Global) -> Result<u16, AllocError> {
        Ok(*self)
    }
}

impl Duplicate for Algorithm {
    fn copy(&self, alloc: Global) -> Result<Algorithm, AllocError> {
        Ok(Algorithm {
            name: self.name.copy(alloc)?,
            cardinality: self.cardinality,
            resources: self.resources.copy(alloc)?,
            inputs: self.inputs.copy(alloc)?,
            first_output: self.first_output,
            outputs: self.outputs.copy(alloc)?,
            filter: self.filter.copy(alloc)?,
        })
    }
}

impl PartialEq for Algorithm {
    ghost use Rattle.std.specs.Prelude.{nat_eq};
    ghost use Rattle.std.specs.Cmp.{and_equiv, nat_eq_equiv, on_equiv, partial_equiv_from_equiv};
    ghost use Rattle.std.specs.Cmp.Lexicographic.{lists_equiv, nat_list_eq_equiv, options_equiv, pointwise};
    ghost use Rattle.std.specs.Option.{option_eq};
    ghost use Rattle.std.specs.Ordering.{eq_of_both, on};
    ghost use Rattle.hive_model.specs.contracts.algorithm.OutputEq.TheImpl.Laws.{laws-law as output_law};
    ghost use Rattle.hive_model.specs.contracts.expr.ExprEq.TheImpl.Laws.{laws-law as expr_law};

    ghost eq = { eq_of_both (on (λ it. it.name) (pointwise nat_eq)) (eq_of_both (on (λ it. it.cardinality) nat_eq) (eq_of_both (on (λ it. it.resources) (pointwise nat_eq)) (eq_of_both (on (λ it. it.inputs) (pointwise nat_eq)) (eq_of_both (on (λ it. it.first_output) nat_eq) (eq_of_both (on (λ it. it.outputs) (pointwise ⟦<Output as PartialEq>⟧.eq)) (on (λ it. it.filter) (option_eq ⟦<Expr as PartialEq>⟧.eq))))))) };

    ghost laws = { partial_equiv_from_equiv (and_equiv (on_equiv (λ it. it.name) nat_list_eq_equiv) (and_equiv (on_equiv (λ it. it.cardinality) nat_eq_equiv) (and_equiv (on_equiv (λ it. it.resources) nat_list_eq_equiv) (and_equiv (on_equiv (λ it. it.inputs) nat_list_eq_equiv) (and_equiv (on_equiv (λ it. it.first_output) nat_eq_equiv) (and_equiv (on_equiv (λ it. it.outputs) (lists_equiv output_law)) (on_equiv (λ it. it.filter) (options_equiv expr_law)))))))) };

    fn eq(&self, other: &Self) -> bool {
        self.name == other.name
            && self.cardinality == other.cardinality
            && self.resources.as_slice() == other.resources.as_slice()
            && self.inputs() == other.inputs()
            && self.first_output == other.first_output
            && self.outputs() == other.outputs()
            && self.filter == other.filter
    }
}

impl Eq for Algorithm {
    ghost use Rattle.std.specs.Cmp.{and_equiv, nat_eq_equiv, on_equiv};
    ghost use Rattle.std.specs.Cmp.Lexicographic.{lists_equiv, nat_list_eq_equiv, options_equiv};
    ghost use Rattle.hive_model.specs.contracts.algorithm.OutputEq.TheImpl.Laws.{laws-law as output_law};
    ghost use Rattle.hive_model.specs.contracts.expr.ExprEq.TheImpl.Laws.{laws-law as expr_law};

    ghost laws = { and_equiv (on_equiv (λ it. it.name) nat_list_eq_equiv) (and_equiv (on_equiv (λ it. it.cardinality) nat_eq_equiv) (and_equiv (on_equiv (λ it. it.resources) nat_list_eq_equiv) (and_equiv (on_equiv (λ it. it.inputs) nat_list_eq_equiv) (and_equiv (on_equiv (λ it. it.first_output) nat_eq_equiv) (and_equiv (on_equiv (λ it. it.outputs) (lists_equiv output_law)) (on_equiv (λ it. it.filter) (options_equiv expr_law))))))) };
}
