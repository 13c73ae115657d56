//! The texts that are read.
ghost use Rattle.std.specs.Prelude.{IfOk};
ghost use Rattle.hive_model.specs.Runnable.{AreInOrder};

use expr_text::parse;
use hive_model::{Expr, Kind, Text};
use std::alloc::{AllocError, Global};
use text_model::{ExprRefusal, Named};

/// How many operands are added in a text of 1,024 bytes and 256 nodes.
pub(crate) const MOST: u8 = 127;

/// How many operands are added in a text of half that.
pub(crate) const HALF: u8 = 63;

/// A sum to which so many operands are added: 8 bytes and 2 nodes for each, and as many for the first.
pub(crate) fn sum_text(alloc: Global, added: u8) -> Result<String, AllocError> {
    let mut text = String::from_str(alloc, "-1000000")?;
    for _operand in 0..added {
        text.push_str(" + 10001")?;
    }
    Ok(text)
}

/// What is computed over a list: four walks over its elements.
pub(crate) const WALKS: u64 = 4;

pub(crate) const LIST_TEXT: &str = "sum(scale(shift(hits, 1), 3)) + max(hits)";

/// The expression of a text over the list `hits`.
pub(crate) fn number_of(alloc: Global, text: &str) -> Result<Expr, ExprRefusal>
    ensures { IfOk result AreInOrder }
{
    let mut names = Vec::new(alloc);
    names.push(Named {
        name: Text::from_str(alloc, "hits")?,
        handle: 0,
        kind: Kind::List,
    })?;
    parse(alloc, text, names.as_slice(), Kind::Num)
}

/// Reads the text so often, and gives the number of nodes that were made.
pub(crate) fn parse_often(alloc: Global, text: &str, count: u32) -> Result<u64, ExprRefusal> {
    let mut nodes: u64 = 0;
    for _time in 0..count {
        let expr = number_of(alloc, text)?;
        nodes = nodes.saturating_add(expr.nodes().len() as u64);
    }
    Ok(nodes)
}
