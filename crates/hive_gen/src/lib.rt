//! Large inputs from a number: the options of one job, and as many records for it as are asked for.
//!
//! [`options`] and [`records`] give the whole texts, and a [`Generator`] the records piece by piece, in
//! memory that doesn't grow with their number. Contracts see texts as bytes, and a generator as what of its
//! text is still to come. `specs/` says what the texts are, in the order of its `Lib.antt`: the numbers that
//! are drawn, the events that are made of them, and how these are written. docs/FORMATS.md, "Generator",
//! tells the same in words.
#![tactic(auto)]

mod draws;
mod event_lines;
mod generator;
mod options_text;

pub use generator::{Generator, MOST_PIECE_BYTES, records};
pub use options_text::options;
