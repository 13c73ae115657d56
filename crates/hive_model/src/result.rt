//! What an event came to.
ghost use Rattle.std.specs.Prelude.{◌≡◌};

use crate::{Decision, End, EventStatus, Many, Store};
use std::marker::Model;

/// The result of one event: what its report tells.
#[derive(Debug, Drop)]
pub struct EventResult {
    pub event: u64,
    pub status: EventStatus,
    /// One for each sequence, in written order.
    pub decisions: Many<Decision>,
    /// One for each algorithm, in written order.
    pub ends: Many<End>,
    /// One place for each handle.
    pub store: Store,
}

impl Model for EventResult {
    ghost use Rattle.hive_model.specs.EventResult.{EventResult as Shown};

    ghost Value = { Shown };

    ghost view = { λ it. record { event = it.event; status = it.status; decisions = it.decisions.items; ends = it.ends.items; store = it.store } };
}

impl EventResult {
    /// The decisions, one for each sequence.
    pub fn decisions(&self) -> &[Decision]
        ensures { result.now ≡ self.now.decisions }
    {
        self.decisions.as_slice()
    }

    /// The ends, one for each algorithm.
    pub fn ends(&self) -> &[End]
        ensures { result.now ≡ self.now.ends }
    {
        self.ends.as_slice()
    }
}

impl PartialEq for EventResult {
    ghost use Rattle.std.specs.Prelude.{nat_eq};
    ghost use Rattle.std.specs.Cmp.{and_equiv, nat_eq_equiv, on_equiv, partial_equiv_from_equiv};
    ghost use Rattle.std.specs.Cmp.Lexicographic.{lists_equiv, pointwise};
    ghost use Rattle.std.specs.Ordering.{eq_of_both, on};
    ghost use Rattle.hive_model.specs.contracts.decision.DecisionEq.TheImpl.Laws.{laws-law as decision_law};
    ghost use Rattle.hive_model.specs.contracts.decision.EndEq.TheImpl.Laws.{laws-law as end_law};
    ghost use Rattle.hive_model.specs.contracts.decision.EventStatusEq.TheImpl.Laws.{laws-law as status_law};
    ghost use Rattle.hive_model.specs.contracts.store.StoreEq.TheImpl.Laws.{laws-law as store_law};

    ghost eq = { eq_of_both (on (λ it. it.event) nat_eq) (eq_of_both (on (λ it. it.status) ⟦<EventStatus as PartialEq>⟧.eq) (eq_of_both (on (λ it. it.decisions) (pointwise ⟦<Decision as PartialEq>⟧.eq)) (eq_of_both (on (λ it. it.ends) (pointwise ⟦<End as PartialEq>⟧.eq)) (on (λ it. it.store) ⟦<Store as PartialEq>⟧.eq)))) };

    ghost laws = { partial_equiv_from_equiv (and_equiv (on_equiv (λ it. it.event) nat_eq_equiv) (and_equiv (on_equiv (λ it. it.status) status_law) (and_equiv (on_equiv (λ it. it.decisions) (lists_equiv decision_law)) (and_equiv (on_equiv (λ it. it.ends) (lists_equiv end_law)) (on_equiv (λ it. it.store) store_law))))) };

    fn eq(&self, other: &Self) -> bool {
        self.event == other.event
            && self.status == other.status
            && self.decisions() == other.decisions()
            && self.ends() == other.ends()
            && self.store == other.store
    }
}

impl Eq for EventResult {
    ghost use Rattle.std.specs.Cmp.{and_equiv, nat_eq_equiv, on_equiv};
    ghost use Rattle.std.specs.Cmp.Lexicographic.{lists_equiv};
    ghost use Rattle.hive_model.specs.contracts.decision.DecisionEq.TheImpl.Laws.{laws-law as decision_law};
    ghost use Rattle.hive_model.specs.contracts.decision.EndEq.TheImpl.Laws.{laws-law as end_law};
    ghost use Rattle.hive_model.specs.contracts.decision.EventStatusEq.TheImpl.Laws.{laws-law as status_law};
    ghost use Rattle.hive_model.specs.contracts.store.StoreEq.TheImpl.Laws.{laws-law as store_law};

    ghost laws = { (and_equiv (on_equiv (λ it. it.event) nat_eq_equiv) (and_equiv (on_equiv (λ it. it.status) status_law) (and_equiv (on_equiv (λ it. it.decisions) (lists_equiv decision_law)) (and_equiv (on_equiv (λ it. it.ends) (lists_equiv end_law)) (on_equiv (λ it. it.store) store_law))))) };
}
