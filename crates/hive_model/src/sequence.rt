//! Decision nodes and their members.
ghost use Rattle.std.specs.Prelude.{◌≡◌};
ghost use Rattle.hive_model.specs.Sequence.{plain_sequence};

use crate::{Many, Text};
use std::marker::Model;

/// A member of a sequence, by its number from 0.
#[derive(Clone, Copy, Debug, PartialEq, Eq)]
pub enum Member {
    /// An algorithm: a leaf of the tree.
    Alg(u16),
    /// A sequence.
    Seq(u16),
}

/// A decision node over its members (docs/PROCESSING.md, "Decisions").
#[derive(Debug, Drop)]
pub struct Sequence {
    pub name: Text,
    pub members: Many<Member>,
    /// Whether the node is an OR; else it is an AND.
    pub mode_or: bool,
    /// Whether one member can fix the node's value.
    pub short_circuit: bool,
    /// Whether a member is entered only after all members before it are decided.
    pub sequential: bool,
    /// Whether the node's value is swapped.
    pub invert: bool,
    /// Whether the node's value counts as true once it is decided. This comes after `invert`.
    pub ignore_filter: bool,
    /// Whether the algorithms below the node that have not run are withdrawn once it is decided.
    pub cut: bool,
}

impl Model for Sequence {
    ghost use Rattle.hive_model.specs.Sequence.{Sequence as Shown};

    ghost Value = { Shown };

    ghost view = { λ it. record { name = it.name; members = it.members.items; mode_or = it.mode_or; short_circuit = it.short_circuit; sequential = it.sequential; invert = it.invert; ignore_filter = it.ignore_filter; cut = it.cut } };
}

impl Sequence {
    /// A concurrent short-circuit AND over these members, with all flags at their defaults.
    pub fn new(name: Text, members: Many<Member>) -> Sequence
        ensures { result ≡ plain_sequence name members.items }
    {
        Sequence {
            name,
            members,
            mode_or: false,
            short_circuit: true,
            sequential: false,
            invert: false,
            ignore_filter: false,
            cut: false,
        }
    }

    /// Its members, in written order.
    pub fn members(&self) -> &[Member]
        ensures { result.now ≡ self.now.members }
    {
        self.members.as_slice()
    }
}

impl PartialEq for Sequence {
    ghost use Rattle.std.specs.Prelude.{nat_eq};
    ghost use Rattle.std.specs.Cmp.{and_equiv, bool_eq_equiv, on_equiv, partial_equiv_from_equiv};
    ghost use Rattle.std.specs.Cmp.Lexicographic.{lists_equiv, nat_list_eq_equiv, pointwise};
    ghost use Rattle.std.specs.Ordering.{eq_of_both, on};
    ghost use Rattle.hive_model.specs.contracts.sequence.MemberEq.TheImpl.Laws.{laws-law as member_law};

    ghost eq = { eq_of_both (on (λ it. it.name) (pointwise nat_eq)) (eq_of_both (on (λ it. it.members) (pointwise ⟦<Member as PartialEq>⟧.eq)) (eq_of_both (on (λ it. it.mode_or) ⟦<bool as PartialEq>⟧.eq) (eq_of_both (on (λ it. it.short_circuit) ⟦<bool as PartialEq>⟧.eq) (eq_of_both (on (λ it. it.sequential) ⟦<bool as PartialEq>⟧.eq) (eq_of_both (on (λ it. it.invert) ⟦<bool as PartialEq>⟧.eq) (eq_of_both (on (λ it. it.ignore_filter) ⟦<bool as PartialEq>⟧.eq) (on (λ it. it.cut) ⟦<bool as PartialEq>⟧.eq))))))) };

    ghost laws = { partial_equiv_from_equiv (and_equiv (on_equiv (λ it. it.name) nat_list_eq_equiv) (and_equiv (on_equiv (λ it. it.members) (lists_equiv member_law)) (and_equiv (on_equiv (λ it. it.mode_or) bool_eq_equiv) (and_equiv (on_equiv (λ it. it.short_circuit) bool_eq_equiv) (and_equiv (on_equiv (λ it. it.sequential) bool_eq_equiv) (and_equiv (on_equiv (λ it. it.invert) bool_eq_equiv) (and_equiv (on_equiv (λ it. it.ignore_filter) bool_eq_equiv) (on_equiv (λ it. it.cut) bool_eq_equiv)))))))) };

    fn eq(&self, other: &Self) -> bool {
        self.name == other.name
            && self.members() == other.members()
            && self.mode_or == other.mode_or
            && self.short_circuit == other.short_circuit
            && self.sequential == other.sequential
            && self.invert == other.invert
            && self.ignore_filter == other.ignore_filter
            && self.cut == other.cut
    }
}

impl Eq for Sequence {
    ghost use Rattle.std.specs.Cmp.{and_equiv, bool_eq_equiv, on_equiv};
    ghost use Rattle.std.specs.Cmp.Lexicographic.{lists_equiv, nat_list_eq_equiv};
    ghost use Rattle.hive_model.specs.contracts.sequence.MemberEq.TheImpl.Laws.{laws-law as member_law};

    ghost laws = { and_equiv (on_equiv (λ it. it.name) nat_list_eq_equiv) (and_equiv (on_equiv (λ it. it.members) (lists_equiv member_law)) (and_equiv (on_equiv (λ it. it.mode_or) bool_eq_equiv) (and_equiv (on_equiv (λ it. it.short_circuit) bool_eq_equiv) (and_equiv (on_equiv (λ it. it.sequential) bool_eq_equiv) (and_equiv (on_equiv (λ it. it.invert) bool_eq_equiv) (and_equiv (on_equiv (λ it. it.ignore_filter) bool_eq_equiv) (on_equiv (λ it. it.cut) bool_eq_equiv))))))) };
}
