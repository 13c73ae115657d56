//! A claim is performed.
ghost use Rattle.std.specs.Prelude.{◌≡◌, ◌+◌, IfOk, IfErr};
ghost use Rattle.hive_model.specs.Execution.{execution};
ghost use Rattle.hive_model.specs.Runnable.{CanPerform};
ghost use Rattle.hive_model.specs.Scratch.{IsMadeFor};

use crate::executing::execute;
use crate::{Claimed, Done, Steps};
use hive_model::{Algorithm, Execution, Lent, Scratch};
use std::alloc::{AllocError, Global};
use std::sync::ledger::Ledger;

// Executes an algorithm over the inputs of the instance, which comes back with them and its room.
fn execute_in(alloc: Global, body: &Algorithm, lent: Lent) -> (Lent, Result<Execution, AllocError>)
    requires performs { CanPerform body.now }
    requires made_for { IsMadeFor body.now lent.scratch }
    ensures executed { IfOk result.1 (λ it. it ≡ execution body.now lent.scratch.inputs) }
    ensures algorithm { result.0.algorithm ≡ lent.algorithm }
    ensures clone { result.0.clone ≡ lent.clone }
    ensures inputs { result.0.scratch.inputs ≡ lent.scratch.inputs }
    ensures made_for { IsMadeFor body.now result.0.scratch }
{
    let Lent {
        algorithm,
        clone,
        scratch,
    } = lent;
    let (mut stack, inputs) = scratch.into_parts();
    let executed = execute(alloc, body, inputs.as_slice(), &mut stack);
    let scratch = Scratch::from_parts(stack, inputs);
    let lent = Lent {
        algorithm,
        clone,
        scratch,
    };
    (lent, executed)
}

/// Executes the claim's algorithm over the inputs that its scratch holds (docs/PROCESSING.md,
/// "Execution"), and counts one step, whatever comes.
///
/// An algorithm that faults is done, with the outcome that it failed. The only error is that memory
/// ran out, which hands the claim back as it was.
pub fn perform<L: Ledger>(
    alloc: Global,
    claimed: Claimed,
    steps: &mut Steps<L>,
) -> Result<Done, (Claimed, AllocError)>
    ensures claim { IfOk result (λ it. it.claim ≡ claimed) }
    ensures executed { IfOk result (λ it. it.left ≡ execution claimed.body claimed.inputs) }
    ensures handed_back { IfErr result (λ it. it.0 ≡ claimed) }
    ensures step { steps.new ≡ steps.old + 1 }
{
    steps.tick();
    let Claimed {
        ticket,
        place,
        body,
        lent,
    } = claimed;
    let (lent, executed) = execute_in(alloc, &body, lent);
    match executed {
        Ok(Execution { outcome, outputs }) => Ok(Done {
            ticket,
            place,
            body,
            lent,
            outcome,
            outputs,
        }),
        Err(error) => {
            let claimed = Claimed {
                ticket,
                place,
                body,
                lent,
            };
            Err((claimed, error))
        }
    }
}
