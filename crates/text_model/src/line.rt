//! What a line of records says, and how far the lines before it lead.
use hive_model::EventRecord;

/// What a line of records says where it isn't refused (docs/FORMATS.md, "Records").
#[derive(Debug, PartialEq, Eq, Drop)]
pub enum Line {
    /// It holds no byte, and is skipped.
    Blank,
    /// It names the raw handles in their order.
    Header,
    Record(EventRecord),
}

/// What stands before a line of records.
#[derive(Clone, Copy, Debug, PartialEq, Eq)]
pub struct Progress {
    /// How many lines, blank ones among them.
    pub lines: u32,
    /// How many bytes, line ends among them.
    pub bytes: u64,
    /// How many records.
    pub events: u32,
    /// Whether the header is among the lines.
    pub header: bool,
}
