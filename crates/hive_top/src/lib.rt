//! The calls that a program makes: from the words of its command line, its files and its input to the
//! bytes that it writes and the status with which it ends.
//!
//! [`hive`] is the whole program but for the real files and streams, with workers, and [`hive_plain`] the same on one
//! thread. What both owe is one relation, `IsRan`. They are generic over the traits of `hive_edge`, so a test hands them
//! files and streams in memory.
#![tactic(auto)]

mod commands;
mod generate;
mod job;
mod job_line;
mod lines;
mod ran;
mod run;
mod status;
mod stop;
mod task;
mod top;
mod trace;
mod words;

pub use commands::{
    Command, Concurrency, DEFAULT_SLOTS, DEFAULT_WORKERS, Generated, How, Input, Verb,
};
pub use ran::Ran;
pub use status::Status;
pub use top::{hive, hive_plain};
