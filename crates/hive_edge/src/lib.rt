//! The outside as `hive` sees it: a [`Source`] of records, a [`Sink`] for reports, and a [`Shelf`] of named texts.
//!
//! Each trait says what a call does to what is told of the outside (`rest`, `got`, `files`), and has a
//! count of faults: an answer `Failed` comes only where that count rose or stands at its last value, so
//! code that is generic over the traits can't answer a fault that didn't happen.
//!
//! A [`CleanSource`], [`CleanSink`] and [`CleanShelf`] are the outside in memory, without faults; a
//! [`MemSource`], [`MemSink`] and [`MemShelf`] fail at the calls that they are told to. [`send`] writes a
//! whole piece to any sink, and [`read_all`] reads any source to its end.
#![tactic(auto)]

mod clean_shelf;
mod clean_sink;
mod clean_source;
mod failed;
mod failing;
mod mem_shelf;
mod mem_sink;
mod mem_source;
mod pieces;
mod reading;
mod shelf;
mod sink;
mod source;

pub use clean_shelf::CleanShelf;
pub use clean_sink::CleanSink;
pub use clean_source::CleanSource;
pub use failed::Failed;
pub use mem_shelf::MemShelf;
pub use mem_sink::MemSink;
pub use mem_source::MemSource;
pub use reading::{InputFault, read_all};
pub use shelf::{Shelf, ShelfFault};
pub use sink::{Sink, send};
pub use source::Source;
