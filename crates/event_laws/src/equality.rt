//! Laws of equality: `==` on products, outcomes, records and jobs is equality of what contracts see.
ghost use Rattle.std.specs.Prelude.{◌≡◌, ◌↔◌, true};
ghost use Rattle.hive_model.specs.EventRecord.{EventRecord as Event};
ghost use Rattle.hive_model.specs.Job.{Job as Shown};
ghost use Rattle.hive_model.specs.Same.{same_outcome};
ghost use Rattle.hive_model.specs.declared.outcome.Outcome.{Outcome as Ended};
ghost use Rattle.hive_model.specs.declared.product.Product.{Product as Value};

use hive_model::{EventRecord, Job, Outcome, Product};

/// Products are equal exactly where `==` says so.
pub fn equal_products()
    ensures { (x y : Value) → (⟦<Product as PartialEq>⟧.eq x y ≡ true) ↔ (x ≡ y) }
{}

/// Records are equal exactly where `==` says so.
pub fn equal_records()
    ensures { (x y : Event) → (⟦<EventRecord as PartialEq>⟧.eq x y ≡ true) ↔ (x ≡ y) }
{}

/// Jobs are equal exactly where `==` says so.
pub fn equal_jobs()
    ensures { (x y : Shown) → (⟦<Job as PartialEq>⟧.eq x y ≡ true) ↔ (x ≡ y) }
{}

/// Outcomes are equal exactly where `==` says so, and where the definitions' test does.
pub fn equal_outcomes()
    ensures value { (x y : Ended) → (⟦<Outcome as PartialEq>⟧.eq x y ≡ true) ↔ (x ≡ y) }
    ensures test { (x y : Ended) → (same_outcome x y ≡ true) ↔ (x ≡ y) }
{}
