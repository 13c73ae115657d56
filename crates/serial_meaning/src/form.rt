//! The nodes of an expression by the number of their operands.
ghost use Rattle.std.specs.Prelude.{◌≡◌};
ghost use Rattle.serial_meaning.specs.Evaluation.{node_of};

use hive_model::{Binary, Function, Node};

// What a node makes of one operand.
#[derive(Clone, Copy)]
pub(crate) enum One {
    Negate,
    Call(Function),
}

// What a node makes of two operands.
#[derive(Clone, Copy)]
pub(crate) enum Two {
    Operator(Binary),
    Call(Function),
}

// A node with the places of its operands.
#[derive(Clone, Copy)]
pub(crate) enum Form {
    Number(i64),
    Handle(u16),
    One(One, u16),
    Two(Two, u16, u16),
}

pub(crate) fn form_of(node: Node) -> Form
    ensures { node_of result ≡ node }
{
    match node {
        Node::Number(number) => Form::Number(number),
        Node::Handle(handle) => Form::Handle(handle),
        Node::Negate(only) => Form::One(One::Negate, only),
        Node::Binary(operator, left, right) => Form::Two(Two::Operator(operator), left, right),
        Node::Call(function, only, None) => Form::One(One::Call(function), only),
        Node::Call(function, left, Some(right)) => Form::Two(Two::Call(function), left, right),
    }
}
