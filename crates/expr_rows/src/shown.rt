//! Products and faults as the rows show them.
use hive_model::{Fault, Product};
use std::alloc::{AllocError, Global};

/// A number in decimal, a list in brackets, and nothing where there is no product.
pub(crate) fn show(alloc: Global, product: Option<&Product>) -> Result<String, AllocError> {
    match product {
        Some(Product::Num(number)) => format!(in alloc; "{number}"),
        Some(Product::List(numbers)) => format!(in alloc; "{:?}", numbers.as_slice()),
        None => String::from_str(alloc, "nothing"),
    }
}

/// The fault's name.
pub(crate) fn show_fault(alloc: Global, fault: Fault) -> Result<String, AllocError> {
    format!(in alloc; "{fault:?}")
}
