//! A key of a table.

/// A key with the rule of its value, and what is meant where it is absent (docs/FORMATS.md,
/// "Options").
#[derive(Clone, Copy)]
pub struct Key<R> {
    pub name: &'static str,
    pub rule: R,
    pub absent: Absent,
}

/// What is meant where a key is absent.
#[derive(Clone, Copy)]
pub enum Absent {
    /// The key has to be there.
    Required,
    /// Nothing is said.
    Optional,
    /// This number.
    Number(u8),
    /// This truth value.
    Truth(bool),
    /// An array without elements.
    Empty,
}
