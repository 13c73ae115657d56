//! The raw options of an options text, or the first refusal of its shape.
//!
//! [`read`] is the call: TOML by the kit's `toml`, then the tables in the order of docs/FORMATS.md,
//! "Options", with the defaults filled in. What it answers is the definition `read_of` of
//! text_model. The code goes by tables of keys (`tables`), which are those of the definition.
#![tactic(auto)]

mod arrays;
mod key;
mod names;
mod options;
mod paths;
mod row;
mod rows;
mod rule;
mod rules;
mod tables;
mod values;
mod visit;

pub use options::read;
pub use paths::{below, numbered};
