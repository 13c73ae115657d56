//! The forest of sequences with its top, from names: whose member is whose, and the first thing that is wrong with it.
//!
//! [`build`] answers what `text_model` calls the forest of some algorithms and sequences (`forest_of`): a [`Tree`], or
//! the refusal that comes first in the order of `TreeRefusal`. Contracts see a `Tree` as the members of each sequence
//! and the top's number. Where there is a tree, sequences nest as a valid job wants it.
#![tactic(auto)]

mod branch;
mod building;
mod leaves;
mod members;
mod repeated;
mod sequences;
mod shape;
mod tree;

pub use branch::Branch;
pub use building::build;
pub use tree::Tree;
