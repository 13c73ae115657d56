//! Rows of expressions: each line of the input is a text, which is evaluated by recursion on its tree, in the closure
//! of an event, and node by node on a stack, by a claim that is performed. `stdout` holds what the language says
//! (docs/FORMATS.md, "Expressions").
//!
//! A row is `num` or `list`, the wanted kind, or `print`, then `|` and the text over `hits`, a list, `total`, the
//! number 7, and `run`, the number 9. A third part says that hits is so many ones; else it is 3 and 4. What is printed
//! is the value, the fault or the refusal, or the expression as it is printed; both values where the ways differ.
#![tactic(auto)]

mod body;
mod names;
mod print;
mod shown;
mod stack;
mod tree;

ghost use Rattle.hive_model.specs.Runnable.{AreInOrder};

use body::expression;
use hive_model::{Duplicate, Expr, Kind, Product};
use names::{hits, names};
use print::printed;
use stack::by_stack;
use std::alloc::{AllocError, Global};
use text_model::Named;
use tree::by_tree;

fn main(rt: HostRuntime) -> anyhow::Result<()> {
    let names = names(rt.alloc())?;
    let mut count: u64 = 0;
    for line in rt.lines(rt.alloc()) {
        let line = line?;
        let text = row(rt.alloc(), line.as_str(), names.as_slice())?;
        println!(rt; "{text}")?;
        count = count.saturating_add(1);
    }
    println!(rt; "{count} rows")?;
    Ok(())
}

// What a line comes to, or that it is no row.
fn row(alloc: Global, line: &str, names: &[Named]) -> Result<String, AllocError> {
    match line.split_once('|') {
        Some((kind, text)) => row_of(alloc, line, kind.trim(), text.trim(), names),
        None => format!(in alloc; "no row: {line}"),
    }
}

fn row_of(
    alloc: Global,
    line: &str,
    kind: &str,
    text: &str,
    names: &[Named],
) -> Result<String, AllocError> {
    match kind {
        "num" => value(alloc, text, Kind::Num, names),
        "list" => value(alloc, text, Kind::List, names),
        "print" => printed(alloc, text, names),
        _ => format!(in alloc; "no row: {line}"),
    }
}

// What a text comes to, with a number of ones behind it, if there is one.
fn value(alloc: Global, text: &str, wanted: Kind, names: &[Named]) -> Result<String, AllocError> {
    let (text, ones) = match text.split_once('|') {
        Some((text, ones)) => (text.trim(), ones.trim().parse().unwrap_or(0)),
        None => (text, 0),
    };
    match expression(alloc, text, wanted, names) {
        Ok(expr) => value_of(alloc, text, wanted, expr, ones),
        Err(refusal) => format!(in alloc; "{text} = {refusal:?}"),
    }
}

// The value both ways.
fn value_of(
    alloc: Global,
    text: &str,
    wanted: Kind,
    expr: Expr,
    ones: usize,
) -> Result<String, AllocError>
    requires { AreInOrder expr }
{
    let tree = by_tree(alloc, wanted, expr.copy(alloc)?, hits(alloc, ones)?)?;
    let stack = by_stack(alloc, wanted, expr, hits(alloc, ones)?)?;
    if tree.as_str() == stack.as_str() {
        format!(in alloc; "{text} = {tree}")
    } else {
        format!(in alloc; "{text} = {tree} by the tree and {stack} on the stack")
    }
}
