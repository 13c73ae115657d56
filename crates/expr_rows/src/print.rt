//! An expression printed, and read again.
ghost use Rattle.hive_model.specs.Runnable.{AreInOrder};

use crate::body::expression;
use expr_text::print;
use hive_model::{Expr, Kind};
use std::alloc::{AllocError, Global};
use text_model::Named;

/// A text's expression as it is printed, with a word where that isn't read as the same nodes.
pub(crate) fn printed(alloc: Global, text: &str, names: &[Named]) -> Result<String, AllocError> {
    match expression(alloc, text, Kind::Num, names) {
        Ok(expr) => printed_of(alloc, text, &expr, names),
        Err(refusal) => format!(in alloc; "{text} = {refusal:?}"),
    }
}

fn printed_of(alloc: Global, text: &str, expr: &Expr, names: &[Named]) -> Result<String, AllocError>
    requires { AreInOrder expr.now }
{
    let printed = print(alloc, expr, names)?;
    let word = if is_read_back(alloc, printed.as_str(), expr, names) {
        "prints"
    } else {
        "is lost in"
    };
    format!(in alloc; "{text} {word} {}", printed.as_str())
}

fn is_read_back(alloc: Global, printed: &str, expr: &Expr, names: &[Named]) -> bool {
    match expression(alloc, printed, Kind::Num, names) {
        Ok(again) => again.nodes() == expr.nodes(),
        Err(_) => false,
    }
}
