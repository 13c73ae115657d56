//! The input of one event.
ghost use Rattle.std.specs.Prelude.{◌≡◌};

use crate::{Duplicate, Many, Product};
use std::alloc::{AllocError, Global};
use std::marker::Model;

/// One event's number and its cells, one for each raw handle in order; an absent cell is `None`.
#[derive(Debug, Drop)]
pub struct EventRecord {
    pub event: u64,
    pub cells: Many<Option<Product>>,
}

impl Model for EventRecord {
    ghost use Rattle.hive_model.specs.EventRecord.{EventRecord as Shown};

    ghost Value = { Shown };

    ghost view = { λ it. record { event = it.event; cells = it.cells.items } };
}

impl EventRecord {
    /// The cells, one for each raw handle.
    pub fn cells(&self) -> &[Option<Product>]
        ensures { result.now ≡ self.now.cells }
    {
        self.cells.as_slice()
    }
}

impl Duplicate for EventRecord {
    fn copy(&self, alloc: Global) -> Result<EventRecord, AllocError> {
        Ok(EventRecord {
            event: self.event,
            cells: self.cells.copy(alloc)?,
        })
    }
}

impl PartialEq for EventRecord {
    ghost use Rattle.std.specs.Prelude.{nat_eq};
    ghost use Rattle.std.specs.Cmp.{and_equiv, nat_eq_equiv, on_equiv, partial_equiv_from_equiv};
    ghost use Rattle.std.specs.Cmp.Lexicographic.{lists_equiv, options_equiv, pointwise};
    ghost use Rattle.std.specs.Option.{option_eq};
    ghost use Rattle.std.specs.Ordering.{eq_of_both, on};
    ghost use Rattle.hive_model.specs.contracts.product.ProductEq.TheImpl.Laws.{laws-law as product_law};

    ghost eq = { eq_of_both (on (λ it. it.event) nat_eq) (on (λ it. it.cells) (pointwise (option_eq ⟦<Product as PartialEq>⟧.eq))) };

    ghost laws = { partial_equiv_from_equiv (and_equiv (on_equiv (λ it. it.event) nat_eq_equiv) (on_equiv (λ it. it.cells) (lists_equiv (options_equiv product_law)))) };

    fn eq(&self, other: &Self) -> bool {
        self.event == other.event && self.cells() == other.cells()
    }
}

impl Eq for EventRecord {
    ghost use Rattle.std.specs.Cmp.{and_equiv, nat_eq_equiv, on_equiv};
    ghost use Rattle.std.specs.Cmp.Lexicographic.{lists_equiv, options_equiv};
    ghost use Rattle.hive_model.specs.contracts.product.ProductEq.TheImpl.Laws.{laws-law as product_law};

    ghost laws = { and_equiv (on_equiv (λ it. it.event) nat_eq_equiv) (on_equiv (λ it. it.cells) (lists_equiv (options_equiv product_law))) };
}
