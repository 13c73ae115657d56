//! The tokens of an expression's text, and what they may stand for (docs/FORMATS.md, "Expressions").
use hive_model::Binary;

/// What a token is. The sign `-` is the operator `-`.
#[derive(Clone, Copy, Debug, PartialEq, Eq)]
pub enum Symbol {
    /// A literal.
    Number(i64),
    /// A name of that many bytes.
    Name(u32),
    Operator(Binary),
    Open,
    Close,
    Comma,
}

/// A token and the byte of the text, from 0, at which it begins.
#[derive(Clone, Copy, Debug, PartialEq, Eq)]
pub struct Token {
    pub at: u32,
    pub symbol: Symbol,
}

/// How strongly an operator binds. Products bind most.
#[derive(Clone, Copy, Debug, PartialEq, Eq)]
pub enum Level {
    Compare,
    Sum,
    Product,
}

/// What one part of an expression's text is, apart from its operands.
#[derive(Clone, Copy, Debug, PartialEq, Eq)]
pub enum Form {
    /// A literal.
    Number(i64),
    /// A data handle by a name of that many bytes.
    Name(u32),
    Sign,
    Operator(Binary),
    /// A function by a name of that many bytes.
    Call(u32),
}
