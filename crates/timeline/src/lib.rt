//! The journal of a run as text, a line for each entry, and back.
//!
//! Contracts see a text as its bytes and a journal as the list of its entries. [`print`] writes what
//! `text_model` calls the timeline of the entries (`Timeline`), and [`parse`] reads exactly the texts that are
//! timelines: each other one is refused, with its first bad line and the first cause there
//! (`TimelineRead`). [`laws`] says that reading and printing undo each other. docs/FORMATS.md, "Timeline",
//! tells the format in words.
#![tactic(auto)]

mod fields;
pub mod laws;
mod lines;
mod pieces;
mod reading;
mod values;
mod writing;

pub use reading::parse;
pub use writing::{print, print_entry};
