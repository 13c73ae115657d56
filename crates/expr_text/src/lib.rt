//! Expressions as text: what an options file says about a product or a filter, and the list of nodes
//! that is evaluated.
//!
//! [`parse`] gives exactly the expression that a text means (`expr_of` of hive_model), or the first
//! refusal of docs/FORMATS.md, "Refusals of an expression". [`print`] writes a list of nodes back.
#![tactic(auto)]

mod assembly;
mod grammar;
pub mod laws;
mod names;
mod parser;
mod printer;
mod symbols;

pub use parser::parse;
pub use printer::print;
