//! How an execution ends, and what it leaves.
ghost use Rattle.std.specs.Prelude.{◌≡◌, map};
ghost use Rattle.std.specs.Arc.{arc_value};
ghost use Rattle.hive_model.specs.Execution.{failed};
ghost use Rattle.hive_model.specs.Results.{kept_by};

use crate::many::Many;
use crate::outcome::{Fault, Outcome, Place};
use crate::product::Product;
use std::alloc::Global;
use std::marker::Model;
use std::sync::Arc;

/// How an execution of an algorithm ended, and the outputs that it left (docs/PROCESSING.md,
/// "Execution").
///
/// Contracts see the outputs as products.
#[derive(Drop)]
pub struct Execution {
    /// How it ended.
    pub outcome: Outcome,
    /// The outputs that it made, in written order; none where it failed.
    pub outputs: Many<Arc<Product>>,
}

impl Model for Execution {
    ghost use Rattle.std.specs.Prelude.{map};
    ghost use Rattle.std.specs.Arc.{arc_value};
    ghost use Rattle.hive_model.specs.Execution.{Execution as Shown};

    ghost Value = { Shown };

    ghost view = { λ it. record {
      outcome = it.outcome;
      outputs = map arc_value it.outputs.items;
    } };
}

impl Execution {
    /// One that failed there by that fault. It takes no memory.
    pub fn failed(alloc: Global, place: Place, fault: Fault) -> Execution
        ensures { result ≡ failed place fault }
    {
        Execution {
            outcome: Outcome::Failed(place, fault),
            outputs: Many::new(alloc),
        }
    }

    /// The outputs that the event store takes: all, or none where it failed.
    pub fn kept(&self) -> &[Arc<Product>]
        ensures { map arc_value result.now ≡ kept_by self.now.outcome self.now.outputs }
    {
        match self.outcome {
            Outcome::Accepted => self.outputs.as_slice(),
            Outcome::Rejected => self.outputs.as_slice(),
            Outcome::Failed(_, _) => &[],
        }
    }
}
