//! Data products and their kinds.
ghost use Rattle.std.specs.Prelude.{◌≡◌, IfOk};

use crate::{Duplicate, Ints};
use std::alloc::{AllocError, Global};

/// What a data handle holds: one number or a list of numbers.
#[derive(Clone, Copy, Debug, PartialEq, Eq)]
pub enum Kind {
    /// One whole number.
    Num,
    /// A list of whole numbers.
    List,
}

/// The value of a data handle in one event.
#[derive(Debug, PartialEq, Eq, Drop)]
pub enum Product {
    /// One whole number of 64 bits with sign.
    Num(i64),
    /// At most [`MOST_NUMBERS`](crate::MOST_NUMBERS) of them.
    List(Ints),
}

impl Duplicate for Product {
    fn copy(&self, alloc: Global) -> Result<Product, AllocError> {
        match self {
            Product::Num(number) => Ok(Product::Num(*number)),
            Product::List(numbers) => Ok(Product::List(numbers.copy(alloc)?)),
        }
    }
}
