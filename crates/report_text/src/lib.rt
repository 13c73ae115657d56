//! The report of an event as text, the line that counts the events of a run, and the lines with which a run stops.
//!
//! [`push_report`] appends the report of one result, [`Counts::push_line`] the last line of a run that was read
//! to its end. [`push_stop_record`] and [`push_stop_options`] append the stop line of a refusal. What they write is
//! defined in `text_model` (`Report`, `Whole`, `Stops`); docs/FORMATS.md tells it in words.
#![tactic(auto)]

mod counts;
mod report;
mod stops;
mod words;

pub use counts::Counts;
pub use report::{names_of, push_report};
pub use stops::{push_stop_options, push_stop_record};
