//! Expressions, as lists of nodes.
ghost use Rattle.std.specs.Prelude.{◌≡◌};
ghost use Rattle.hive_model.specs.Function.{function_name, signature};

use crate::{Duplicate, Kind, Many};
use std::alloc::{AllocError, Global};
use std::marker::Model;

/// An operator between two numbers (docs/FORMATS.md, "Expressions").
#[derive(Clone, Copy, Debug, PartialEq, Eq)]
pub enum Binary {
    Add,
    Sub,
    Mul,
    Div,
    Rem,
    Eq,
    Ne,
    Lt,
    Le,
    Gt,
    Ge,
}

/// A function of an expression (docs/FORMATS.md, "Expressions").
#[derive(Clone, Copy, Debug, PartialEq, Eq)]
pub enum Function {
    Len,
    Sum,
    Min,
    Max,
    At,
    Above,
    Scale,
    Shift,
    Cat,
    First,
}

/// The kinds of a function's operands and of its value. The first operand is a list.
#[derive(Clone, Copy, Debug, PartialEq, Eq)]
pub struct Signature {
    /// The kind of the second operand, where there is one.
    pub second: Option<Kind>,
    pub result: Kind,
}

impl Function {
    /// All functions.
    pub const ALL: [Function; 10] = [
        Function::Len,
        Function::Sum,
        Function::Min,
        Function::Max,
        Function::At,
        Function::Above,
        Function::Scale,
        Function::Shift,
        Function::Cat,
        Function::First,
    ];

    /// The word by which an expression's text names it.
    pub fn name(self) -> &'static str
        ensures { result.now ≡ function_name self }
    {
        match self {
            Function::Len => "len",
            Function::Sum => "sum",
            Function::Min => "min",
            Function::Max => "max",
            Function::At => "at",
            Function::Above => "above",
            Function::Scale => "scale",
            Function::Shift => "shift",
            Function::Cat => "cat",
            Function::First => "first",
        }
    }

    /// What it takes and gives.
    pub fn signature(self) -> Signature
        ensures { result ≡ signature self }
    {
        let (second, result) = match self {
            Function::Len => (None, Kind::Num),
            Function::Sum => (None, Kind::Num),
            Function::Min => (None, Kind::Num),
            Function::Max => (None, Kind::Num),
            Function::At => (Some(Kind::Num), Kind::Num),
            Function::Above => (Some(Kind::Num), Kind::List),
            Function::Scale => (Some(Kind::Num), Kind::List),
            Function::Shift => (Some(Kind::Num), Kind::List),
            Function::Cat => (Some(Kind::List), Kind::List),
            Function::First => (Some(Kind::Num), Kind::List),
        };
        Signature { second, result }
    }
}

/// One node of an expression. A node names its operands by their places in the node list, from 0.
#[derive(Clone, Copy, Debug, PartialEq, Eq)]
pub enum Node {
    /// A literal.
    Number(i64),
    /// The product of a data handle.
    Handle(u16),
    /// The operand with its sign turned.
    Negate(u16),
    /// An operator over the left and the right operand.
    Binary(Binary, u16, u16),
    /// A function of one or two operands.
    Call(Function, u16, Option<u16>),
}

impl Duplicate for Node {
    fn copy(&self, _alloc: Global) -> Result<Node, AllocError> {
        Ok(*self)
    }
}

/// An expression: its nodes in the order left operand, right operand, parent, the root last.
#[derive(Debug, Drop)]
pub struct Expr {
    pub nodes: Many<Node>,
}

impl Model for Expr {
    ghost use Rattle.std.specs.Prelude.{List};
    ghost use Rattle.hive_model.specs.declared.expr.Node.{Node};

    ghost Value = { List Node };

    ghost view = { λ it. it.nodes.items };
}

impl Expr {
    ghost use Rattle.std.specs.Prelude.{◌≡◌};

    /// The nodes in order.
    pub fn nodes(&self) -> &[Node]
        ensures { result.now ≡ self.now }
    {
        self.nodes.as_slice()
    }
}

impl Duplicate for Expr {
    fn copy(&self, alloc: Global) -> Result<Expr, AllocError> {
        Ok(Expr {
            nodes: self.nodes.copy(alloc)?,
        })
    }
}

impl PartialEq for Expr {
    ghost use Rattle.std.specs.Cmp.{partial_equiv_from_equiv};
    ghost use Rattle.std.specs.Cmp.Lexicographic.{lists_equiv, pointwise};
    ghost use Rattle.hive_model.specs.contracts.expr.NodeEq.TheImpl.Laws.{laws-law as node_law};

    ghost eq = { pointwise ⟦<Node as PartialEq>⟧.eq };

    ghost laws = { partial_equiv_from_equiv (lists_equiv node_law) };

    fn eq(&self, other: &Self) -> bool {
        self.nodes() == other.nodes()
    }
}

impl Eq for Expr {
    ghost use Rattle.std.specs.Cmp.Lexicographic.{lists_equiv};
    ghost use Rattle.hive_model.specs.contracts.expr.NodeEq.TheImpl.Laws.{laws-law as node_law};

    ghost laws = { lists_equiv node_law };
}
