//! The handles that the rows speak of, and what they hold.
use hive_model::{Ints, Kind, MOST_NUMBERS, Product, Text};
use std::alloc::{AllocError, Global};
use text_model::Named;

/// `hits`, `total` and `run`, numbered in that order.
pub(crate) fn names(alloc: Global) -> Result<Vec<Named>, AllocError> {
    let mut names = Vec::new(alloc);
    names.push(named(alloc, "hits", 0, Kind::List)?)?;
    names.push(named(alloc, "total", 1, Kind::Num)?)?;
    names.push(named(alloc, "run", 2, Kind::Num)?)?;
    Ok(names)
}

fn named(alloc: Global, name: &str, handle: u16, kind: Kind) -> Result<Named, AllocError> {
    let name = Text::from_str(alloc, name)?;
    Ok(Named { name, handle, kind })
}

/// So many ones, or 3 and 4 where that is 0 or too many.
pub(crate) fn hits(alloc: Global, ones: usize) -> Result<Product, AllocError> {
    let numbers = if ones == 0 || ones > MOST_NUMBERS {
        Ints::from_slice(alloc, &[3, 4])?
    } else {
        Ints::from_vec(vec![in alloc; 1i64; ones]?)
    };
    Ok(Product::List(numbers))
}
