//! Rounds: in each, all algorithms run that can.
ghost use Rattle.std.specs.Prelude.{◌≡◌, None, false, IfOk, OnOk, length, map, replicate};
ghost use Rattle.std.specs.List.{AllByRecursion, enumerate_from};
ghost use Rattle.hive_model.specs.Closure.{closure, round};
ghost use Rattle.hive_model.specs.Enabled.{inputs_in, is_ready};
ghost use Rattle.hive_model.specs.Execution.{execution};
ghost use Rattle.hive_model.specs.Runnable.{CanExecute, IsRunnable};
ghost use Rattle.serial_meaning.specs.Round.{run_by};

use crate::executing::execute;
use crate::reached::{is_reached, reached};
use crate::store::{all_there, inputs_in, outcome_of, outcomes_of, store_of};
use hive_model::{Algorithm, EventRecord, Execution, Job, Member, Outcome, Store};
use std::alloc::{AllocError, Global};

// Whether the algorithm is reached, has not run, and finds its inputs in the store.
#[tactic(auto, unfolding(hive_model::specs::Enabled::is_ready))]
fn is_ready(
    members: &[Member],
    store: &Store,
    number: usize,
    algorithm: &Algorithm,
    outcome: Option<Outcome>,
) -> bool
    ensures { result ≡ is_ready members.now store.now number algorithm.now outcome }
{
    if !is_reached(members, number) {
        return false;
    }
    if outcome.is_some() {
        return false;
    }
    all_there(store, algorithm.inputs())
}

// Executes an algorithm over its inputs in the store.
fn execute_in(alloc: Global, store: &Store, algorithm: &Algorithm) -> Result<Execution, AllocError>
    requires { CanExecute algorithm.now }
    ensures { IfOk result (λ it.
        it ≡ execution algorithm.now (inputs_in store.now algorithm.now.inputs)) }
{
    let inputs = inputs_in(alloc, store, algorithm.inputs())?;
    Ok(execute(alloc, algorithm, inputs.as_slice())?)
}

// Runs each algorithm that can, and tells whether there was one.
fn run_all(
    alloc: Global,
    members: &[Member],
    store: &Store,
    algorithms: &[Algorithm],
    ran: &mut Vec<Option<Execution>>,
) -> Result<bool, AllocError>
    requires runnable { AllByRecursion CanExecute algorithms.now }
    requires size { length ran.old.items ≡ length algorithms.now }
    ensures ran { OnOk result (ran.new.items
        ≡ map (run_by members.now store.now ran.old.items) (enumerate_from 0 algorithms.now)) }
    ensures none { IfOk result (λ added. added ≡ false → ran.new.items ≡ ran.old.items) }
{
    let mut added = false;
    for (number, algorithm) in algorithms.iter().enumerate() {
        let outcome = outcome_of(&ran[number]);
        if is_ready(members, store, number, algorithm, outcome) {
            ran[number] = Some(execute_in(alloc, store, algorithm)?);
            added = true;
        }
    }
    Ok(added)
}

// One round, and whether it added a result.
fn run_round(
    alloc: Global,
    job: &Job,
    event: &EventRecord,
    ran: &mut Vec<Option<Execution>>,
) -> Result<bool, AllocError>
    requires runnable { IsRunnable job.now }
    requires size { length ran.old.items ≡ length job.now.algorithms }
    ensures ran { OnOk result (ran.new.items ≡ round job.now event.now ran.old.items) }
    ensures none { IfOk result (λ added. added ≡ false → ran.new.items ≡ ran.old.items) }
{
    let outcomes = outcomes_of(alloc, ran.as_slice())?;
    let members = reached(alloc, job, outcomes.as_slice())?;
    let store = store_of(alloc, job, event, ran.as_slice())?;
    Ok(run_all(alloc, members.as_slice(), &store, job.algorithms(), ran)?)
}

// Results of so many algorithms, none of which has run.
fn no_results(alloc: Global, count: usize) -> Result<Vec<Option<Execution>>, AllocError>
    ensures { IfOk result (λ it. it.items ≡ replicate count None) }
{
    let mut ran = Vec::with_capacity(alloc, count)?;
    for _algorithm in 0..count {
        ran.push(None)?;
    }
    Ok(ran)
}

// As many rounds as there are algorithms. Once a round adds nothing, neither do those after it.
pub(crate) fn run_rounds(
    alloc: Global,
    job: &Job,
    event: &EventRecord,
) -> Result<Vec<Option<Execution>>, AllocError>
    requires { IsRunnable job.now }
    ensures { IfOk result (λ it. it.items ≡ closure job.now event.now) }
{
    let count = job.algorithms().len();
    let mut ran = no_results(alloc, count)?;
    for _round in 0..count {
        if !run_round(alloc, job, event, &mut ran)? {
            return Ok(ran);
        }
    }
    Ok(ran)
}
