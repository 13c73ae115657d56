//! Work that is handed out.
ghost use Rattle.std.specs.Prelude.{◌≡◌, Some, map, slice_get};
ghost use Rattle.std.specs.Arc.{arc_value};
ghost use Rattle.hive_model.specs.Job.{Job};
ghost use Rattle.hive_model.specs.Runnable.{CanPerform};
ghost use Rattle.hive_model.specs.Scratch.{IsMadeFor};
ghost use Rattle.expr_code.specs.Claim.{IsOfJob, claim_of};

use hive_model::{Algorithm, Lent, Product};
use std::marker::Model;
use std::sync::Arc;

/// An algorithm that was claimed for one event, with an instance on loan that holds its inputs.
///
/// It can't be dropped: it is spent by [`crate::perform`] or by [`Claimed::into_lent`], so no
/// instance is lost with a claim.
pub struct Claimed {
    pub(crate) ticket: u64,
    pub(crate) place: u64,
    pub(crate) body: Arc<Algorithm>,
    pub(crate) lent: Lent,
}

impl Model for Claimed {
    ghost use Rattle.std.specs.Arc.{arc_value};
    ghost use Rattle.hive_model.specs.Runnable.{CanPerform};
    ghost use Rattle.hive_model.specs.Scratch.{IsMadeFor};
    ghost use Rattle.expr_code.specs.Claim.{Claim, claim_of};

    ghost Value = { Claim };

    ghost view = { λ it. claim_of it.ticket it.place (arc_value it.body) it.lent };

    ghost invariant = { λ it. CanPerform (arc_value it.body)
        × IsMadeFor (arc_value it.body) it.lent.scratch };
}

impl Claimed {
    /// A claim with that ticket, for the event that stands at a place of the input, from 1. The
    /// body is the algorithm that was lent.
    pub fn new(ticket: u64, place: u64, body: Arc<Algorithm>, lent: Lent) -> Claimed
        requires performs { CanPerform (arc_value body) }
        requires made_for { IsMadeFor (arc_value body) lent.scratch }
        ensures claim { result ≡ claim_of ticket place (arc_value body) lent }
        ensures of_job { (job : Job)
            → slice_get job.algorithms lent.algorithm ≡ Some (arc_value body)
            → IsOfJob job result }
    {
        Claimed {
            ticket,
            place,
            body,
            lent,
        }
    }

    /// The index, from 0, of the claim among the entries of its journal.
    pub fn ticket(&self) -> u64
        ensures { result ≡ self.now.ticket }
    {
        self.ticket
    }

    /// The place of the event in the input, from 1.
    pub fn place(&self) -> u64
        ensures { result ≡ self.now.place }
    {
        self.place
    }

    /// The algorithm's number, from 0.
    pub fn algorithm(&self) -> u16
        ensures { result ≡ self.now.algorithm }
    {
        self.lent.algorithm
    }

    /// The number of the instance on loan, from 0, or nothing for a re-entrant algorithm.
    pub fn clone_number(&self) -> Option<u8>
        ensures { result ≡ self.now.clone }
    {
        self.lent.clone
    }

    /// The products of the algorithm's inputs, in written order.
    pub fn inputs(&self) -> &[Arc<Product>]
        ensures { map arc_value result.now ≡ self.now.inputs }
    {
        self.lent.scratch.inputs()
    }

    /// Gives the instance back, and the algorithm isn't executed.
    pub fn into_lent(self) -> Lent
        ensures algorithm { result.algorithm ≡ self.algorithm }
        ensures clone { result.clone ≡ self.clone }
        ensures inputs { result.scratch.inputs ≡ self.inputs }
        ensures made_for { IsMadeFor self.body result.scratch }
    {
        let Claimed {
            ticket: _,
            place: _,
            body: _,
            lent,
        } = self;
        lent
    }
}
