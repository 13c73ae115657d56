//! Rows of jobs: each line of the input is an options text, and what is printed is `job A algorithms S sequences H handles`,
//! or the stop line. `stdout` holds what docs/FORMATS.md says.
//!
//! A row is the parts of its text with `|` between. `\n` is a line feed. A part `NUMBER*PIECE` is the piece so many times,
//! where `#` is its number, from 0, and `@` the next one.
#![tactic(auto)]

mod answer;
mod text;

use answer::answer_to;
use text::text_of;

fn main(rt: HostRuntime) -> anyhow::Result<()> {
    let mut count: u64 = 0;
    for line in rt.lines(rt.alloc()) {
        let line = line?;
        let text = text_of(rt.alloc(), line.as_str())?;
        let answer = answer_to(rt.alloc(), text.as_bytes())?;
        print!(rt; "{answer}")?;
        count = count.saturating_add(1);
    }
    println!(rt; "{count} rows")?;
    Ok(())
}
