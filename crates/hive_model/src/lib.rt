//! The types that every part of `hive` speaks, and the definitions of what an event means.
//!
//! A [`Job`] is what an options text describes: raw handles, algorithms with their expressions, and a
//! forest of decision nodes. An [`EventRecord`] is one event's input, a [`Store`] the event store, and
//! an [`EventResult`] what an event came to. The layers above see each of these as plain lists and
//! records (`specs/`), never as vectors with room to spare.
//!
//! `specs/` holds the meaning of an event, one module for each concept, in the order of its `Lib.antt`;
//! docs/PROCESSING.md tells the same rules in words.
#![tactic(auto)]

mod algorithm;
mod decision;
mod duplicate;
mod entry;
mod execution;
mod expr;
mod function;
mod ints;
mod item;
mod job;
mod lent;
mod limits;
mod many;
mod operator;
mod outcome;
mod product;
mod record;
mod result;
mod scratch;
mod sequence;
mod store;
mod text;

pub use algorithm::{Algorithm, Output, Raw, Resource};
pub use decision::{Decision, End, EventStatus};
pub use duplicate::Duplicate;
pub use entry::Entry;
pub use execution::Execution;
pub use expr::{Binary, Expr, Function, Node, Signature};
pub use ints::Ints;
pub use item::Item;
pub use job::Job;
pub use lent::Lent;
pub use limits::{
    MOST_ALGORITHMS, MOST_DEPTH, MOST_HANDLES, MOST_INSTANCES, MOST_LEAVES, MOST_NODES,
    MOST_NUMBERS, MOST_RESOURCES, MOST_SEQUENCES, MOST_SLOTS, MOST_UNITS,
};
pub use many::Many;
pub use outcome::{Fault, Outcome, Place};
pub use product::{Kind, Product};
pub use record::EventRecord;
pub use result::EventResult;
pub use scratch::{Operand, Scratch};
pub use sequence::{Member, Sequence};
pub use store::Store;
pub use text::Text;
