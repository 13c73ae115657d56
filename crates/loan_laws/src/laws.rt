//! What keeps the pools and the claims in step. Each of these functions does nothing: its contract is the
//! law.
ghost use Rattle.std.specs.Prelude.{◌≡◌, ◌<◌, ◌&&◌, ℕ, true, false, List, None, Option, Some, is_some, length, replicate, slice_get, slice_set};
ghost use Rattle.std.specs.List.{list_any};
ghost use Rattle.clone_pools.specs.Lending.{ComesBack, GivenBack, LendSays};
ghost use Rattle.clone_pools.specs.Loans.{IsFree, Pool, Pools, can_lend, is_lent, opening, with_loan, with_pool, without_loan};
ghost use Rattle.hive_model.specs.Algorithm.{Algorithm};
ghost use Rattle.hive_model.specs.EventRecord.{EventRecord};
ghost use Rattle.hive_model.specs.Job.{Job};
ghost use Rattle.hive_model.specs.Lending.{has_units, is_free};
ghost use Rattle.hive_model.specs.Machine.{Busy, Outstanding, begun, claim_at};
ghost use Rattle.hive_model.specs.Scratch.{IsMadeFor};
ghost use Rattle.hive_model.specs.Step.{claimed};
ghost use Rattle.hive_model.specs.declared.lent.Lent.{Lent as Loan};
ghost use Rattle.loan_laws.specs.Loans.{ArePoolsOf};

use clone_pools::Lend;

/// The pools that a job begins with are those of a state in which each slot is empty. They stay those of the
/// state where an event begins, and where one ends that has nothing claimed (docs/PROCESSING.md, "Claims").
pub fn events_without_claims_have_nothing()
    ensures opening { (job : Job) (slots : ℕ) → ArePoolsOf job (replicate slots None) (opening job) }
    ensures admission { (job : Job) (slots : List (Option Busy)) (it : Pools) (slot place : ℕ)
        (event : EventRecord) → ArePoolsOf job slots it → slice_get slots slot ≡ Some None
        → ArePoolsOf job (slice_set slots slot (Some (begun job place event))) it }
    ensures retirement { (job : Job) (slots : List (Option Busy)) (it : Pools) (slot : ℕ) (b : Busy)
        → ArePoolsOf job slots it → slice_get slots slot ≡ Some (Some b)
        → list_any is_some b.claims ≡ false → ArePoolsOf job (slice_set slots slot None) it }
{}

/// A claim goes with a loan, and the end of a claim, by a booking or without, with the return of that loan
/// (docs/PROCESSING.md, "Claims").
pub fn claims_go_with_loans()
    ensures claim { (job : Job) (slots : List (Option Busy)) (it : Pools) (slot number : ℕ) (b : Busy)
        (a : Algorithm) (p : Pool) (clone : Option ℕ) (ticket place : ℕ) → ArePoolsOf job slots it
        → slice_get slots slot ≡ Some (Some b) → slice_get job.algorithms number ≡ Some a
        → claim_at b number ≡ None → number < length b.claims
        → slice_get it.pools number ≡ Some p → IsFree p clone
        → ArePoolsOf job (slice_set slots slot (Some (claimed b number a ticket clone)))
        (with_pool it number (with_loan p clone place)) }
    ensures back { (job : Job) (slots : List (Option Busy)) (it : Pools) (slot number : ℕ) (b new : Busy)
        (a : Algorithm) (p : Pool) (c : Outstanding) → ArePoolsOf job slots it
        → slice_get slots slot ≡ Some (Some b) → slice_get job.algorithms number ≡ Some a
        → claim_at b number ≡ Some c → slice_get it.pools number ≡ Some p
        → new.claims ≡ slice_set b.claims number None
        → ArePoolsOf job (slice_set slots slot (Some new)) (with_pool it number (without_loan p c.clone)) }
{}

/// What a claim has is lent, and comes back with any scratch that is made for its algorithm
/// (docs/PROCESSING.md, "Claims").
pub fn claims_may_come_back()
    ensures lent { (job : Job) (slots : List (Option Busy)) (it : Pools) (slot number : ℕ) (b : Busy)
        (a : Algorithm) (c : Outstanding) → ArePoolsOf job slots it
        → slice_get slots slot ≡ Some (Some b) → slice_get job.algorithms number ≡ Some a
        → claim_at b number ≡ Some c → is_lent it number c.clone ≡ true }
    ensures fits { (job : Job) (slots : List (Option Busy)) (it : Pools) (a : Algorithm) (loan : Loan)
        → ArePoolsOf job slots it → slice_get job.algorithms loan.algorithm ≡ Some a
        → IsMadeFor a loan.scratch → ComesBack it loan }
{}

/// The pools lend exactly where the state lets the algorithm be claimed (docs/PROCESSING.md, "Claims").
pub fn pools_lend_what_may_be_claimed()
    ensures lent { (job : Job) (slots : List (Option Busy)) (it : Pools) (number : ℕ) (a : Algorithm)
        (p : Pool) (clone : Option ℕ) → ArePoolsOf job slots it
        → slice_get job.algorithms number ≡ Some a → slice_get it.pools number ≡ Some p
        → can_lend it number ≡ true → IsFree p clone
        → (is_free slots number a clone && has_units job slots a) ≡ true }
    ensures refused { (job : Job) (slots : List (Option Busy)) (it : Pools) (number : ℕ) (a : Algorithm)
        (clone : Option ℕ) → ArePoolsOf job slots it → slice_get job.algorithms number ≡ Some a
        → can_lend it number ≡ false
        → (is_free slots number a clone && has_units job slots a) ≡ false }
    ensures one { (job : Job) (slots : List (Option Busy)) (it : Pools) (number : ℕ) (a : Algorithm)
        → ArePoolsOf job slots it → slice_get job.algorithms number ≡ Some a
        → can_lend it number ≡ true
        → (clone : Option ℕ) × ((is_free slots number a clone && has_units job slots a) ≡ true) }
{}

/// A loan that comes back at once leaves the pools as they were (docs/PROCESSING.md, "Claims").
pub fn loans_are_undone()
    ensures { (it later last : Pools) (number place : ℕ) (loan back : Loan)
        → LendSays it number place (Lend.Lent loan) later → back.algorithm ≡ loan.algorithm
        → back.clone ≡ loan.clone → GivenBack later back last → last ≡ it }
{}
