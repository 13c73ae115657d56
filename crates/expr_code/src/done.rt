//! Work that is done.
ghost use Rattle.std.specs.Prelude.{◌≡◌, map};
ghost use Rattle.std.specs.Arc.{arc_value};
ghost use Rattle.hive_model.specs.Execution.{execution};
ghost use Rattle.hive_model.specs.Scratch.{IsMadeFor};

use hive_model::{Algorithm, Lent, Many, Outcome, Product};
use std::marker::Model;
use std::sync::Arc;

/// A claim that was executed, with the outcome and the outputs that it left.
///
/// [`crate::perform`] alone makes it. Its type keeps that outcome and outputs are those of the
/// algorithm over the inputs (docs/PROCESSING.md, "Execution"); `outcome` and `into_parts` tell it.
#[derive(Drop)]
pub struct Done {
    pub(crate) ticket: u64,
    pub(crate) place: u64,
    pub(crate) body: Arc<Algorithm>,
    pub(crate) lent: Lent,
    pub(crate) outcome: Outcome,
    pub(crate) outputs: Many<Arc<Product>>,
}

impl Model for Done {
    ghost use Rattle.std.specs.Prelude.{◌≡◌};
    ghost use Rattle.std.specs.Arc.{arc_value};
    ghost use Rattle.hive_model.specs.Execution.{execution};
    ghost use Rattle.hive_model.specs.Scratch.{IsMadeFor};
    ghost use Rattle.expr_code.specs.Claim.{Done as Shown, claim_of, left_with};

    ghost Value = { Shown };

    ghost view = { λ it. record {
      claim = claim_of it.ticket it.place (arc_value it.body) it.lent;
      left = left_with it.outcome it.outputs.items;
    } };

    ghost invariant = { λ it.
        (left_with it.outcome it.outputs.items
        ≡ execution (arc_value it.body) it.lent.scratch.inputs)
        × IsMadeFor (arc_value it.body) it.lent.scratch };
}

impl Done {
    /// The index, from 0, of the claim among the entries of its journal.
    pub fn ticket(&self) -> u64
        ensures { result ≡ self.now.claim.ticket }
    {
        self.ticket
    }

    /// The place of the event in the input, from 1.
    pub fn place(&self) -> u64
        ensures { result ≡ self.now.claim.place }
    {
        self.place
    }

    /// The algorithm's number, from 0.
    pub fn algorithm(&self) -> u16
        ensures { result ≡ self.now.claim.algorithm }
    {
        self.lent.algorithm
    }

    /// The number of the instance on loan, from 0, or nothing for a re-entrant algorithm.
    pub fn clone_number(&self) -> Option<u8>
        ensures { result ≡ self.now.claim.clone }
    {
        self.lent.clone
    }

    /// The products of the algorithm's inputs, in written order.
    pub fn inputs(&self) -> &[Arc<Product>]
        ensures { map arc_value result.now ≡ self.now.claim.inputs }
    {
        self.lent.scratch.inputs()
    }

    /// How the execution ended.
    pub fn outcome(&self) -> &Outcome
        ensures seen { result.now ≡ self.now.left.outcome }
        ensures executed { self.now.left ≡ execution self.now.claim.body self.now.claim.inputs }
    {
        &self.outcome
    }

    /// The instance that comes back, the outcome, and the outputs in written order.
    pub fn into_parts(self) -> (Lent, Outcome, Many<Arc<Product>>)
        ensures algorithm { result.0.algorithm ≡ self.claim.algorithm }
        ensures clone { result.0.clone ≡ self.claim.clone }
        ensures inputs { result.0.scratch.inputs ≡ self.claim.inputs }
        ensures made_for { IsMadeFor self.claim.body result.0.scratch }
        ensures outcome { result.1 ≡ self.left.outcome }
        ensures outputs { map arc_value result.2.items ≡ self.left.outputs }
        ensures executed { self.left ≡ execution self.claim.body self.claim.inputs }
    {
        let Done {
            ticket: _,
            place: _,
            body: _,
            lent,
            outcome,
            outputs,
        } = self;
        (lent, outcome, outputs)
    }
}
