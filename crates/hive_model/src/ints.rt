//! The value of a list product.
ghost use Rattle.std.specs.Prelude.{◌≡◌, ◌≤◌, List, ℤ, length, IfOk};
ghost use Rattle.std.specs.Ordering.{int_eq};
ghost use Rattle.std.specs.Cmp.{partial_equiv_from_equiv, int_eq_equiv};
ghost use Rattle.std.specs.Cmp.Lexicographic.{pointwise, lists_equiv, lists_per};

use crate::{Duplicate, MOST_NUMBERS};
use std::alloc::{AllocError, Global};
use std::marker::Model;

/// At most [`MOST_NUMBERS`](crate::MOST_NUMBERS) whole numbers of 64 bits with sign, in order
/// (docs/FORMATS.md, "Limits").
#[derive(Debug, Drop)]
pub struct Ints(Vec<i64>);

impl Model for Ints {
    ghost use Rattle.std.specs.Prelude.{◌≤◌, List, ℤ, length};
    ghost use Rattle.hive_model.specs.declared.limits.TheConstants.{MOST_NUMBERS};

    ghost Value = { List ℤ };

    ghost view = { λ it. it.0.items };

    ghost invariant = { λ it. length it.0.items ≤ MOST_NUMBERS };
}

impl Ints {
    /// Copies `numbers`. The only error is running out of memory.
    pub fn from_slice(alloc: Global, numbers: &[i64]) -> Result<Ints, AllocError>
        requires { length numbers.now ≤ MOST_NUMBERS }
        ensures { IfOk result (λ it. it ≡ numbers.now) }
    {
        Ok(Ints(Vec::from_slice(alloc, numbers)?))
    }

    /// Takes the numbers of a vector over. It takes no memory.
    pub fn from_vec(numbers: Vec<i64>) -> Ints
        requires { length numbers.items ≤ MOST_NUMBERS }
        ensures { result ≡ numbers.items }
    {
        Ints(numbers)
    }

    /// The vector inside, with the same numbers. It takes no memory.
    pub fn into_vec(self) -> Vec<i64>
        ensures numbers { result.items ≡ self }
        ensures few { length result.items ≤ MOST_NUMBERS }
    {
        self.0
    }

    /// The numbers.
    pub fn as_slice(&self) -> &[i64]
        ensures numbers { result.now ≡ self.now }
        ensures few { length result.now ≤ MOST_NUMBERS }
    {
        self.0.as_slice()
    }
}

impl Duplicate for Ints {
    fn copy(&self, alloc: Global) -> Result<Ints, AllocError> {
        Ints::from_slice(alloc, self.as_slice())
    }
}

impl PartialEq for Ints {
    ghost eq = { λ x y. pointwise int_eq x y };

    ghost laws = { lists_per (partial_equiv_from_equiv int_eq_equiv) };

    fn eq(&self, other: &Self) -> bool {
        self.0.as_slice() == other.0.as_slice()
    }
}

impl Eq for Ints {
    ghost laws = { lists_equiv int_eq_equiv };
}
