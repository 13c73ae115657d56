//! How an execution ends.

/// Why an expression has no value (docs/FORMATS.md, "Expressions").
#[derive(Clone, Copy, Debug, PartialEq, Eq)]
pub enum Fault {
    /// A number outside 64 bits with sign.
    Overflow,
    /// A division by 0.
    DivZero,
    /// The least or greatest of no elements.
    Empty,
    /// An index outside its list.
    Index,
    /// A list of more than 1,024 elements.
    TooLong,
}

/// Where in an algorithm a fault came up.
#[derive(Clone, Copy, Debug, PartialEq, Eq)]
pub enum Place {
    /// The output with this number in the algorithm, from 0.
    Output(u16),
    /// The filter.
    Filter,
}

/// How an execution of an algorithm ends (docs/PROCESSING.md, "Execution").
#[derive(Clone, Copy, Debug, PartialEq, Eq)]
pub enum Outcome {
    /// The filter passed, or there is none.
    Accepted,
    /// The filter is 0. This is no fault: the outputs are there.
    Rejected,
    /// The first fault and its place. No output is left.
    Failed(Place, Fault),
}
