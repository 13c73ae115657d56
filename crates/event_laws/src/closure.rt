//! Laws of the closure: what stays when more algorithms run, and why it doesn't matter in which
//! order they do. Each of these functions does nothing: its contract is the law.
//!
//! Results lie within others where each execution of theirs is there too.
ghost use Rattle.std.specs.Prelude.{◌≡◌, ◌≢◌, ℕ, false, true, Contains, List, Option, Some, length, slice_get};
ghost use Rattle.std.specs.List.{list_any, range_with_len};
ghost use Rattle.event_laws.specs.Additions.{AreMadeOfAdditions};
ghost use Rattle.event_laws.specs.Due.{IsDue};
ghost use Rattle.event_laws.specs.Places.{IsReachedPlace, is_reached_sequence};
ghost use Rattle.event_laws.specs.Rest.{HaveSameExecutions, NothingCanRun, NothingIsEnabled};
ghost use Rattle.event_laws.specs.Uncut.{HasNoCut};
ghost use Rattle.hive_model.specs.Agreement.{Agrees, AreWithin};
ghost use Rattle.hive_model.specs.Algorithm.{Algorithm};
ghost use Rattle.hive_model.specs.Closure.{closure, execution_in, round};
ghost use Rattle.hive_model.specs.Decision.{decision};
ghost use Rattle.hive_model.specs.Enabled.{can_run, enabled, is_enabled, is_ready_in, product_in};
ghost use Rattle.hive_model.specs.Event.{ends_of, event_result, result_of};
ghost use Rattle.hive_model.specs.EventRecord.{EventRecord};
ghost use Rattle.hive_model.specs.EventResult.{EventResult};
ghost use Rattle.hive_model.specs.Execution.{Execution};
ghost use Rattle.hive_model.specs.Job.{Job};
ghost use Rattle.hive_model.specs.Live.{is_live, is_live_sequence};
ghost use Rattle.hive_model.specs.Reached.{is_reached, reached};
ghost use Rattle.hive_model.specs.Results.{Results, outcomes, ran_at, store};
ghost use Rattle.hive_model.specs.declared.outcome.Outcome.{Outcome};
ghost use Rattle.hive_model.specs.declared.product.Product.{Product};

use hive_model::{Decision, End, Member};

/// A decision that is made stays as it is when more algorithms have run.
pub fn decisions_stay()
    ensures { (job : Job) (ran others : Results) (m : Member) → AreWithin ran others
        → decision job (outcomes ran) m ≢ Decision.Undecided
        → decision job (outcomes others) m ≡ decision job (outcomes ran) m }
{}

/// What control flow has reached stays reached.
pub fn reached_stays()
    ensures places { (job : Job) (ran others : Results) (s i : ℕ) (m : Member)
        → AreWithin ran others
        → IsReachedPlace job (outcomes ran) s i m → IsReachedPlace job (outcomes others) s i m }
    ensures sequences { (job : Job) (ran others : Results) (s : ℕ) → AreWithin ran others
        → is_reached_sequence (reached job (outcomes ran)) s ≡ true
        → is_reached_sequence (reached job (outcomes others)) s ≡ true }
    ensures algorithms { (job : Job) (ran others : Results) (number : ℕ) → AreWithin ran others
        → is_reached (reached job (outcomes ran)) number ≡ true
        → is_reached (reached job (outcomes others)) number ≡ true }
{}

/// A product in the store stays there.
pub fn products_stay()
    ensures { (job : Job) (event : EventRecord) (ran others : Results) (handle : ℕ) (p : Product)
        → AreWithin ran others
        → product_in (store job event ran) handle ≡ Some p
        → product_in (store job event others) handle ≡ Some p }
{}

/// A further round leaves the closure as it is, so no algorithm can run in it.
pub fn closure_is_fixed()
    ensures fixed { (job : Job) (event : EventRecord)
        → round job event (closure job event) ≡ closure job event }
    ensures settled { (job : Job) (event : EventRecord)
        → NothingCanRun job event (closure job event) }
{}

/// Each execution in the closure is due in it: whatever has run is reached there, has all its
/// inputs there, and has run over them.
pub fn closure_is_due()
    ensures { (job : Job) (event : EventRecord) (number : ℕ) (a : Algorithm) (it : Execution)
        → slice_get job.algorithms number ≡ Some a → ran_at (closure job event) number ≡ Some it
        → IsDue job event (closure job event) number a it }
{}

/// An algorithm that can run in results within the closure has in the closure the execution that it
/// would get in them.
pub fn runs_as_in_the_closure()
    ensures { (job : Job) (event : EventRecord) (ran : Results) (number : ℕ) (a : Algorithm)
        → AreWithin ran (closure job event)
        → can_run job event ran number ≡ true
        → slice_get job.algorithms number ≡ Some a
        → ran_at (closure job event) number ≡ Some (execution_in job event ran a) }
{}

/// The scheduler asks over outcomes and the store whether an algorithm is enabled. What is enabled
/// can run, and nothing is enabled where no algorithm of the job is.
pub fn what_is_enabled()
    ensures over_outcomes { (job : Job) (event : EventRecord) (ran : Results) (number : ℕ)
        → is_enabled job (outcomes ran) (store job event ran) number
        ≡ enabled job event ran number }
    ensures runs { (job : Job) (event : EventRecord) (ran : Results) (number : ℕ)
        → enabled job event ran number ≡ true → can_run job event ran number ≡ true }
    ensures none { (job : Job) (event : EventRecord) (ran : Results)
        → list_any (is_enabled job (outcomes ran) (store job event ran))
        (range_with_len 0 (length job.algorithms)) ≡ false
        → NothingIsEnabled job event ran }
{}

/// Results made of additions lie within the closure, in whatever order the algorithms were added.
pub fn additions_lie_within_the_closure()
    ensures { (job : Job) (event : EventRecord) (ran : Results)
        → AreMadeOfAdditions job event ran → AreWithin ran (closure job event) }
{}

/// The closure is the least of the fixed points that are made of additions: it is one of them, and
/// lies within each.
pub fn closure_is_least()
    ensures is_one { (job : Job) (event : EventRecord)
        → AreMadeOfAdditions job event (closure job event) }
    ensures is_least { (job : Job) (event : EventRecord) (ran : Results)
        → AreMadeOfAdditions job event ran → round job event ran ≡ ran
        → AreWithin (closure job event) ran }
{}

/// Results within the closure in which nothing can run have the closure's executions. They are the
/// closure itself where they are made of additions, or a round leaves them as they are.
pub fn settled_is_the_closure()
    ensures executions { (job : Job) (event : EventRecord) (ran : Results)
        → AreWithin ran (closure job event) → NothingCanRun job event ran
        → HaveSameExecutions ran (closure job event) }
    ensures made { (job : Job) (event : EventRecord) (ran : Results)
        → AreMadeOfAdditions job event ran → NothingCanRun job event ran → ran ≡ closure job event }
    ensures fixed { (job : Job) (event : EventRecord) (ran : Results)
        → AreWithin ran (closure job event) → round job event ran ≡ ran → ran ≡ closure job event }
{}

/// Results with the same executions come to the same result.
pub fn executions_give_the_result()
    ensures { (job : Job) (event : EventRecord) (ran others : Results)
        → HaveSameExecutions ran others → result_of job event ran ≡ result_of job event others }
{}

/// In a job without cut nodes nothing is cut off.
pub fn nothing_is_cut_off()
    ensures algorithms { (job : Job) (ran : List (Option Outcome)) (number : ℕ) → HasNoCut job
        → is_live job ran number ≡ true }
    ensures sequences { (job : Job) (ran : List (Option Outcome)) (s : ℕ) → HasNoCut job
        → is_live_sequence job ran s ≡ true }
    ensures enabled { (job : Job) (event : EventRecord) (ran : Results) (number : ℕ) → HasNoCut job
        → enabled job event ran number ≡ can_run job event ran number }
    ensures ready { (job : Job) (ran : List (Option Outcome)) (places : List (Option Product))
        (number : ℕ) → HasNoCut job
        → is_enabled job ran places number ≡ is_ready_in job ran places number }
    ensures ends { (job : Job) (ran : List (Option Outcome)) → HasNoCut job
        → Contains (ends_of job ran) End.Withdrawn → ⊥ }
{}

/// In a job without cut nodes, results within the closure in which nothing is enabled have the
/// closure's executions, and come to the event's result.
pub fn settled_without_cut_nodes()
    ensures executions { (job : Job) (event : EventRecord) (ran : Results) → HasNoCut job
        → AreWithin ran (closure job event) → NothingIsEnabled job event ran
        → HaveSameExecutions ran (closure job event) }
    ensures result { (job : Job) (event : EventRecord) (ran : Results) → HasNoCut job
        → AreWithin ran (closure job event) → NothingIsEnabled job event ran
        → result_of job event ran ≡ event_result job event }
{}

/// The event's result agrees with its record, and in a job without cut nodes no other result does.
pub fn agreement()
    ensures of_the_result { (job : Job) (event : EventRecord)
        → Agrees job event (event_result job event) }
    ensures without_cut_nodes { (job : Job) (event : EventRecord) (result : EventResult)
        → HasNoCut job → Agrees job event result → result ≡ event_result job event }
{}

/// A round and the closure have a place for each algorithm.
pub fn sizes()
    ensures round { (job : Job) (event : EventRecord) (ran : Results)
        → length (round job event ran) ≡ length job.algorithms }
    ensures closure { (job : Job) (event : EventRecord)
        → length (closure job event) ≡ length job.algorithms }
{}
