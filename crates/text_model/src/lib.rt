//! What texts mean: the options of a job, expressions, records, reports and the journal's text.
//!
//! `specs/` holds the definitions, in the order of its `Lib.antt`, on `hive_model`, which says what an event
//! means, and on the kit's `toml` and `csv`, whose own definitions say what tables and cells are. The types here
//! are those that the definitions speak of: what is read from a text, and why a text is refused. There is hardly
//! any code; the crates that read and write texts are above. docs/FORMATS.md tells the same rules in words, and
//! [`examples`] shows what some texts mean.
#![tactic(auto)]

pub mod bytes;
mod cut_refusal;
pub mod examples;
mod expr_refusal;
mod graph_refusal;
mod job_refusal;
mod limits;
mod line;
mod named;
mod options_refusal;
mod raw_options;
mod record_refusal;
mod timeline_refusal;
mod token;
mod tree_refusal;

pub use cut_refusal::CutRefusal;
pub use expr_refusal::ExprRefusal;
pub use graph_refusal::GraphRefusal;
pub use job_refusal::JobRefusal;
pub use limits::{
    FIRST_VERSION, MOST_ALGORITHMS_OF_VERSION_1, MOST_EVENTS, MOST_EVENTS_OF_A_LARGE_JOB,
    MOST_EXPRESSION_BYTES, MOST_LINE_BYTES, MOST_LINES, MOST_LITERAL, MOST_MEMBERS,
    MOST_NAME_BYTES, MOST_NESTING, MOST_OPTIONS_BYTES, MOST_RECORDS_BYTES, SECOND_VERSION,
};
pub use line::{Line, Progress};
pub use named::Named;
pub use options_refusal::OptionsRefusal;
pub use raw_options::{RawAlgorithm, RawOptions, RawOutput, RawSequence};
pub use record_refusal::{RecordCause, RecordRefusal};
pub use timeline_refusal::{TimelineCause, TimelineRefusal};
pub use token::{Form, Level, Symbol, Token};
pub use tree_refusal::TreeRefusal;
