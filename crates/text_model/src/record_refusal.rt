//! Why a line of records ends the reading.
use thiserror::Error;

/// What is wrong with a line of records: the first cause in this order, but for Length and Number,
/// which are looked for cell by cell (docs/FORMATS.md, "Records").
#[derive(Clone, Copy, Debug, PartialEq, Eq, Error)]
pub enum RecordCause {
    /// The line's number is over 200,000.
    #[error("over 200,000 lines")]
    TooManyLines,
    /// At least 67,108,864 bytes stand before the line.
    #[error("over 67,108,864 bytes")]
    TooMuch,
    /// The line has over 262,144 bytes without its line end.
    #[error("over 262,144 bytes in a line")]
    LineTooLong,
    /// The line holds a byte outside 32 to 126, or an odd number of quotes.
    #[error("a byte that isn't printable, or a quote that isn't closed")]
    Text,
    /// The cells of the first line that isn't blank aren't `event` and the names of the raw handles in
    /// order, or there is no such line.
    #[error("no header of event and the raw handles in order")]
    Header,
    /// The line has another number of cells than the header.
    #[error("another number of cells than in the header")]
    Fields,
    /// As many records were read already as may be.
    #[error("too many records")]
    TooManyEvents,
    /// The first cell is no event number.
    #[error("the event number is none")]
    Event,
    /// A list has over 1,024 parts.
    #[error("a list of over 1,024 numbers")]
    Length,
    /// A cell, or a part of a list, is no number of 64 bits with sign.
    #[error("a number is none of 64 bits")]
    Number,
}

/// The line at which the reading of records ends, and why.
#[derive(Clone, Copy, Debug, PartialEq, Eq, Error)]
#[error("line {line}: {cause}")]
pub struct RecordRefusal {
    /// The number of the line, from 1; blank lines count.
    pub line: u32,
    pub cause: RecordCause,
}
