//! The versions of options, and the limits of the texts that are read (docs/FORMATS.md, "Limits").

/// The version that options have where they name none.
pub const FIRST_VERSION: u8 = 1;

/// The version of options in which `mode` stands in the place of `mode_or`.
pub const SECOND_VERSION: u8 = 2;

/// The most bytes of an options text.
pub const MOST_OPTIONS_BYTES: usize = 1_048_576;

/// The most bytes of a name.
pub const MOST_NAME_BYTES: usize = 64;

/// The most algorithms that an options text of version 1 describes.
pub const MOST_ALGORITHMS_OF_VERSION_1: usize = 256;

/// The most members that one sequence of an options text names.
pub const MOST_MEMBERS: usize = 1_024;

/// The most bytes of an expression's text.
pub const MOST_EXPRESSION_BYTES: usize = 1_024;

/// The most brackets and signs of an expression that stand open at once.
pub const MOST_NESTING: u8 = 64;

/// The greatest literal of an expression.
pub const MOST_LITERAL: u64 = 9_223_372_036_854_775_807;

/// The most bytes of a line of records, without its line end.
pub const MOST_LINE_BYTES: usize = 262_144;

/// A line of records before which so many bytes stand, or more, is refused.
pub const MOST_RECORDS_BYTES: usize = 67_108_864;

/// The most lines of a records text.
pub const MOST_LINES: u32 = 200_000;

/// The most records of a text.
pub const MOST_EVENTS: u32 = 100_000;

/// The most records of a text where the job has more than
/// [`MOST_ALGORITHMS_OF_VERSION_1`] algorithms.
pub const MOST_EVENTS_OF_A_LARGE_JOB: u32 = 25_000;
