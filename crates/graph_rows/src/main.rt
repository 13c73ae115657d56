//! Rows of graphs and forests from names: each line of the input is one of them, and what is printed for it is the graph
//! or the forest by number, or the refusal. `stdout` holds what docs/FORMATS.md says.
//!
//! A row has four parts with `|` between. `graph | RAWS | NEEDS |` has algorithms with `;` between, each a name, `:`, its
//! inputs, `>` and its outputs. `forest | TOP | ALGORITHMS | SEQUENCES` has sequences with `;` between, each a name, `:`
//! and its members, or `chain` and a number: so many sequences `s0`, `s1` and so on, each with the next as its member. A
//! word `NAME*NUMBER` stands so many times.
#![tactic(auto)]

mod forest;
mod graph;
mod words;

use forest::forest_text;
use graph::graph_text;

fn main(rt: HostRuntime) -> anyhow::Result<()> {
    let mut count: u64 = 0;
    for line in rt.lines(rt.alloc()) {
        let line = line?;
        print_row(&rt, line.as_str())?;
        count = count.saturating_add(1);
    }
    println!(rt; "{count} rows")?;
    Ok(())
}

fn print_row(rt: &HostRuntime, line: &str) -> anyhow::Result<()> {
    let alloc = rt.alloc();
    let parts: Vec<&str> = line.split('|').collect(alloc)?;
    let [kind, first, second, third] = parts.as_slice() else {
        println!(rt; "no row: {line}")?;
        return Ok(());
    };
    let text = if kind.trim() == "graph" {
        graph_text(alloc, first, second)?
    } else {
        forest_text(alloc, first.trim(), second, third)?
    };
    println!(rt; "{text}")?;
    Ok(())
}
