//! The nodes of an expression, from its parts.
ghost use Rattle.std.specs.Prelude.{◌≡◌, ◌≤◌, ◌∷◌, ◌++◌, [], List, length, Ok, Err, Some, None, MatchResult};
ghost use Rattle.std.specs.Option.{option_and_then};
ghost use Rattle.hive_model.specs.Kinds.{if_list, if_num, one_kind, two_kind};
ghost use Rattle.expr_text.specs.Assembly.{both, call_over, node_over, of_kind, only, run};
ghost use Rattle.expr_text.specs.Gives.{Gives, Refused};

use crate::grammar::Part;
use crate::names::{function_of, handle_of, piece};
use hive_model::{Function, Kind, Node};
use std::alloc::Global;
use text_model::{ExprRefusal, Form, Named};

/// An operand that waits for the part over it: its kind, and the place of its root among the nodes.
#[derive(Clone, Copy, Debug)]
pub struct Slot {
    pub kind: Kind,
    pub place: u16,
}

/// The nodes of at most 256 parts, and the operands that are left. The only error besides those of the parts
/// is running out of memory.
#[tactic(auto, unfolding(crate::specs::Assembly::run))]
pub fn assemble(
    alloc: Global,
    text: &[u8],
    names: &[Named],
    parts: &[Part],
) -> Result<(Vec<Node>, Vec<Slot>), ExprRefusal>
    requires { length parts.now ≤ 256 }
    ensures { MatchResult result
        (λ it. run text.now names.now parts.now [] [] ≡ Ok (it.0.items, it.1.items))
        (Refused (run text.now names.now parts.now [] [])) }
{
    let mut nodes = Vec::with_capacity(alloc, parts.len())?;
    let mut slots = Vec::new(alloc);
    for part in parts {
        let start = slots.len().saturating_sub(part.operands);
        let (_, operands) = slots.as_slice().split_at(start);
        let (node, kind) = node_over(text, names, part.at, part.form, operands)?;
        let place = nodes.len() as u16;
        nodes.push(node)?;
        slots.truncate(start);
        slots.push(Slot { kind, place })?;
    }
    Ok((nodes, slots))
}

// The node of a part over its operands, and its kind.
#[tactic(auto, unfolding(crate::specs::Assembly::node_over))]
fn node_over(
    text: &[u8],
    names: &[Named],
    at: u32,
    form: Form,
    operands: &[Slot],
) -> Result<(Node, Kind), ExprRefusal>
    ensures { Gives result (node_over text.now names.now at form operands.now) }
{
    match form {
        Form::Number(number) => {
            if operands.is_empty() {
                Ok((Node::Number(number), Kind::Num))
            } else {
                Err(ExprRefusal::Kind { at })
            }
        }
        Form::Name(length) => handle_over(text, names, at, length, operands),
        Form::Sign => match only(operands) {
            Some(operand) => of_kind(
                at,
                Node::Negate(operand.place),
                if_num(operand.kind, Kind::Num),
            ),
            None => Err(ExprRefusal::Kind { at }),
        },
        Form::Operator(operator) => match both(operands) {
            Some((left, right)) => of_kind(
                at,
                Node::Binary(operator, left.place, right.place),
                nums(left.kind, right.kind),
            ),
            None => Err(ExprRefusal::Kind { at }),
        },
        Form::Call(length) => call_over(at, piece(text, at, length), operands),
    }
}

// The node of a name that is no function, and its kind.
#[tactic(auto, unfolding(crate::specs::Assembly::node_over))]
fn handle_over(
    text: &[u8],
    names: &[Named],
    at: u32,
    length: u32,
    operands: &[Slot],
) -> Result<(Node, Kind), ExprRefusal>
    ensures { Gives result (node_over text.now names.now at (Form.Name length) operands.now) }
{
    if !operands.is_empty() {
        return Err(ExprRefusal::Kind { at });
    }
    match handle_of(names, piece(text, at, length)) {
        Some((handle, kind)) => Ok((Node::Handle(handle), kind)),
        None => Err(ExprRefusal::UnknownName { at }),
    }
}

// The node of a function over its operands, and its kind.
#[tactic(auto, unfolding(crate::specs::Assembly::call_over))]
fn call_over(at: u32, name: &[u8], operands: &[Slot]) -> Result<(Node, Kind), ExprRefusal>
    ensures { Gives result (call_over at name.now operands.now) }
{
    if let Some(operand) = only(operands) {
        return match function_of(name) {
            Some(function) => of_kind(
                at,
                Node::Call(function, operand.place, None),
                one_kind(function, operand.kind),
            ),
            None => Err(ExprRefusal::UnknownName { at }),
        };
    }
    match both(operands) {
        Some((left, right)) => match function_of(name) {
            Some(function) => of_kind(
                at,
                Node::Call(function, left.place, Some(right.place)),
                two_kind(function, left.kind, right.kind),
            ),
            None => Err(ExprRefusal::UnknownName { at }),
        },
        None => Err(ExprRefusal::Kind { at }),
    }
}

// The node with its kind, if it has one.
fn of_kind(at: u32, node: Node, kind: Option<Kind>) -> Result<(Node, Kind), ExprRefusal>
    ensures { result ≡ of_kind at node kind }
{
    match kind {
        Some(kind) => Ok((node, kind)),
        None => Err(ExprRefusal::Kind { at }),
    }
}

// The one operand, if there is one.
fn only(slots: &[Slot]) -> Option<Slot>
    ensures { result ≡ only slots.now }
{
    match slots {
        [slot] => Some(*slot),
        _ => None,
    }
}

// The two operands, if there are two.
fn both(slots: &[Slot]) -> Option<(Slot, Slot)>
    ensures { result ≡ both slots.now }
{
    match slots {
        [left, right] => Some((*left, *right)),
        _ => None,
    }
}

fn if_num(kind: Kind, result_kind: Kind) -> Option<Kind>
    ensures { result ≡ if_num kind result_kind }
{
    match kind {
        Kind::Num => Some(result_kind),
        Kind::List => None,
    }
}

fn if_list(kind: Kind, result_kind: Kind) -> Option<Kind>
    ensures { result ≡ if_list kind result_kind }
{
    match kind {
        Kind::Num => None,
        Kind::List => Some(result_kind),
    }
}

// The kind of an operator over its operands.
fn nums(left: Kind, right: Kind) -> Option<Kind>
    ensures { result ≡ option_and_then (if_num right) (if_num left Kind.Num) }
{
    if_num(right, if_num(left, Kind::Num)?)
}

// The kind of a function of one operand.
fn one_kind(function: Function, kind: Kind) -> Option<Kind>
    ensures { result ≡ one_kind function kind }
{
    match function {
        Function::Len | Function::Sum | Function::Min | Function::Max => if_list(kind, Kind::Num),
        Function::At
        | Function::Above
        | Function::Scale
        | Function::Shift
        | Function::Cat
        | Function::First => None,
    }
}

// The kind of a function of two operands.
fn two_kind(function: Function, kind: Kind, second: Kind) -> Option<Kind>
    ensures { result ≡ two_kind function kind second }
{
    match function {
        Function::At => {
            if_list(kind, Kind::List)?;
            if_num(second, Kind::Num)
        }
        Function::Above | Function::Scale | Function::Shift | Function::First => if_num(
            second,
            if_list(kind, Kind::List)?,
        ),
        Function::Cat => if_list(second, if_list(kind, Kind::List)?),
        Function::Len | Function::Sum | Function::Min | Function::Max => None,
    }
}
