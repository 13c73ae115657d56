//! The trusted edge: real streams and files, as the traits of `hive_edge` see the outside.
//!
//! A [`RealIn`] is a source over any reader, a [`RealOut`] a sink over any writer, and [`RealFiles`] the shelf of the
//! files that a runtime reaches. Each counts its failures. What a real stream or file holds can't be stated: a stream
//! passes on what is told of its reader or writer, which is nothing for standard input and output, and the files tell
//! nothing.
#![tactic(auto)]

mod files;
mod streams;

pub use files::RealFiles;
pub use streams::{RealIn, RealOut};
