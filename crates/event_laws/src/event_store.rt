//! Laws of the event store: what stands in which place, and how it changes. Each of these functions
//! does nothing: its contract is the law.
ghost use Rattle.std.specs.Prelude.{◌≡◌, ℕ, ◌<◌, ◌≤◌, List, [], None, Some, length, slice_get, slice_set};
ghost use Rattle.event_laws.specs.Outputs.{IsOutput};
ghost use Rattle.hive_model.specs.Algorithm.{Algorithm};
ghost use Rattle.hive_model.specs.DataFlow.{AreNumberedFrom};
ghost use Rattle.hive_model.specs.Enabled.{product_in};
ghost use Rattle.hive_model.specs.EventRecord.{EventRecord};
ghost use Rattle.hive_model.specs.Execution.{Execution, execution};
ghost use Rattle.hive_model.specs.Handles.{handle_count};
ghost use Rattle.hive_model.specs.Job.{Job};
ghost use Rattle.hive_model.specs.Results.{Results, kept, ran_at, store};
ghost use Rattle.hive_model.specs.Step.{written};
ghost use Rattle.hive_model.specs.declared.outcome.Fault.{Fault};
ghost use Rattle.hive_model.specs.declared.outcome.Place.{Place};
ghost use Rattle.hive_model.specs.declared.product.Product.{Product};

use hive_model::Outcome;

/// An execution leaves as many outputs as its algorithm has, and none where it failed.
pub fn outputs_of_an_execution()
    ensures accepted { (a : Algorithm) (inputs : List Product)
        → (execution a inputs).outcome ≡ Outcome.Accepted
        → length (execution a inputs).outputs ≡ length a.outputs }
    ensures rejected { (a : Algorithm) (inputs : List Product)
        → (execution a inputs).outcome ≡ Outcome.Rejected
        → length (execution a inputs).outputs ≡ length a.outputs }
    ensures failed { (a : Algorithm) (inputs : List Product) (at : Place) (fault : Fault)
        → (execution a inputs).outcome ≡ Outcome.Failed at fault
        → (execution a inputs).outputs ≡ [] }
{}

/// The store has a place for each handle.
pub fn size_of_the_store()
    ensures { (job : Job) (event : EventRecord) (ran : Results)
        → length (store job event ran) ≡ handle_count job }
{}

/// A raw handle's place holds the record's cell.
pub fn raw_handles_in_the_store()
    ensures { (job : Job) (event : EventRecord) (ran : Results) (handle : ℕ)
        → handle < length job.raws
        → product_in (store job event ran) handle ≡ product_in event.cells handle }
{}

/// An output's place holds the output where its algorithm was accepted or rejected, and nothing
/// where it failed or has not run.
pub fn outputs_in_the_store()
    ensures accepted { (job : Job) (event : EventRecord) (ran : Results) (number i handle : ℕ)
        (it : Execution) → AreNumberedFrom (length job.raws) job.algorithms
        → IsOutput job number i handle
        → ran_at ran number ≡ Some it → it.outcome ≡ Outcome.Accepted
        → product_in (store job event ran) handle ≡ slice_get it.outputs i }
    ensures rejected { (job : Job) (event : EventRecord) (ran : Results) (number i handle : ℕ)
        (it : Execution) → AreNumberedFrom (length job.raws) job.algorithms
        → IsOutput job number i handle
        → ran_at ran number ≡ Some it → it.outcome ≡ Outcome.Rejected
        → product_in (store job event ran) handle ≡ slice_get it.outputs i }
    ensures failed { (job : Job) (event : EventRecord) (ran : Results) (number i handle : ℕ)
        (it : Execution) (at : Place) (fault : Fault)
        → AreNumberedFrom (length job.raws) job.algorithms → IsOutput job number i handle
        → ran_at ran number ≡ Some it → it.outcome ≡ Outcome.Failed at fault
        → product_in (store job event ran) handle ≡ None }
    ensures unrun { (job : Job) (event : EventRecord) (ran : Results) (number i handle : ℕ)
        → AreNumberedFrom (length job.raws) job.algorithms → IsOutput job number i handle
        → ran_at ran number ≡ None → product_in (store job event ran) handle ≡ None }
{}

/// Where the execution of an algorithm that has not run is added to results, what is kept of it is
/// written into the store from the algorithm's first output on.
pub fn store_of_an_addition()
    ensures { (job : Job) (event : EventRecord) (ran : Results) (number : ℕ) (a : Algorithm)
        (it : Execution) → AreNumberedFrom (length job.raws) job.algorithms
        → slice_get job.algorithms number ≡ Some a
        → number < length ran → ran_at ran number ≡ None
        → length (kept (Some it)) ≤ length a.outputs
        → store job event (slice_set ran number (Some it))
        ≡ written a.first_output (kept (Some it)) (store job event ran) }
{}
