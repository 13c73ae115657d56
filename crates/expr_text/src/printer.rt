//! Writing an expression as text.
ghost use Rattle.std.specs.Prelude.{◌≡◌, ◌++◌, ◌-◌, ◌∷◌, ◌<◌, List, ℕ, [], Some, None, ◌≤◌, Ok, IfOk, OnOk, slice_get, length, string_bytes, MatchOption};
ghost use Rattle.text_model.specs.ExprText.{expr_of};
ghost use Rattle.hive_model.specs.declared.product.Kind.{Kind};
ghost use Rattle.hive_model.specs.Tree.{Tree, node_tree, nodes_of, tree_within};
ghost use Rattle.expr_text.specs.Printed.{IsPrintable, enclosed, function_text, is_compound_node, nesting, operator_text, printed, word_of};

use hive_model::{Binary, Expr, Function, Node, Text};
use std::alloc::{AllocError, Global};
use std::fmt::Write;
use text_model::Named;

/// The text of an expression over the handles of `names` (docs/FORMATS.md, "Expressions"). The only error is
/// running out of memory.
///
/// `parse` of the text gives the expression back, where the text is at most [`crate::LONGEST`] bytes and at
/// most [`crate::DEEPEST`] brackets and signs are open at once.
pub fn print(alloc: Global, expr: &Expr, names: &[Named]) -> Result<Text, AllocError>
    requires { (t : Tree) × (expr.now ≡ nodes_of t) }
    ensures text { (t : Tree) → expr.now ≡ nodes_of t → IfOk result (λ text. text ≡ printed names.now t) }
    ensures read_back { (t : Tree) (k : Kind) → expr.now ≡ nodes_of t → IsPrintable names.now t k → nesting t ≤ 64
        → IfOk result (λ text. length text ≤ 1024 → expr_of text names.now k ≡ Ok t) }
{
    let nodes = expr.nodes();
    let mut out = String::new(alloc);
    show(nodes, names, nodes.len(), nodes.len() - 1, &mut out)?;
    Ok(Text::from_string(out))
}

// Appends the text of the part at a place, which is at most `depth` high.
#[cycle(printing)]
fn show(
    nodes: &[Node],
    names: &[Named],
    depth: usize,
    place: usize,
    out: &mut String,
) -> Result<(), AllocError>
    requires { (t : Tree) × (tree_within depth nodes.now place ≡ Some t) }
    ensures { (t : Tree) → tree_within depth nodes.now place ≡ Some t
        → OnOk result (string_bytes out.new ≡ string_bytes out.old ++ printed names.now t) }
{
    match node_at(nodes, depth, place) {
        Node::Number(number) => {
            write!(out, "{number}")?;
            Ok(())
        }
        Node::Handle(handle) => {
            out.push_str(word_of(names, handle))?;
            Ok(())
        }
        Node::Negate(part) => {
            out.push_str("-")?;
            show_operand(nodes, names, depth - 1, usize::from(part), out)?;
            Ok(())
        }
        Node::Binary(operator, left, right) => {
            show_operand(nodes, names, depth - 1, usize::from(left), out)?;
            out.push_str(operator_text(operator))?;
            show_operand(nodes, names, depth - 1, usize::from(right), out)?;
            Ok(())
        }
        Node::Call(function, first, second) => {
            show_call(nodes, names, depth - 1, function, first, second, out)
        }
    }
}

// Appends the text of a call whose operands are at most `depth` high.
#[cycle(printing)]
fn show_call(
    nodes: &[Node],
    names: &[Named],
    depth: usize,
    function: Function,
    first: u16,
    second: Option<u16>,
    out: &mut String,
) -> Result<(), AllocError>
    requires { (t : Tree) × (node_tree (tree_within depth nodes.now) (Node.Call function first second) ≡ Some t) }
    ensures { (t : Tree) → node_tree (tree_within depth nodes.now) (Node.Call function first second) ≡ Some t
        → OnOk result (string_bytes out.new ≡ string_bytes out.old ++ printed names.now t) }
{
    open_call(function, out)?;
    match second {
        None => {
            show(nodes, names, depth, usize::from(first), out)?;
            out.push_str(")")?;
            Ok(())
        }
        Some(second) => {
            show(nodes, names, depth, usize::from(first), out)?;
            out.push_str(", ")?;
            show(nodes, names, depth, usize::from(second), out)?;
            out.push_str(")")?;
            Ok(())
        }
    }
}

// Appends a function's name and its opening bracket.
fn open_call(function: Function, out: &mut String) -> Result<(), AllocError>
    ensures { OnOk result (string_bytes out.new ≡ string_bytes out.old ++ (function_text function ++ 40 ∷ [])) }
{
    out.push_str(function_text(function))?;
    out.push_str("(")?;
    Ok(())
}

// Appends the text of an operand of an operator or a sign.
#[cycle(printing)]
fn show_operand(
    nodes: &[Node],
    names: &[Named],
    depth: usize,
    place: usize,
    out: &mut String,
) -> Result<(), AllocError>
    requires { (t : Tree) × (tree_within depth nodes.now place ≡ Some t) }
    ensures { (t : Tree) → tree_within depth nodes.now place ≡ Some t
        → OnOk result (string_bytes out.new ≡ string_bytes out.old ++ enclosed t (printed names.now t)) }
{
    if is_compound(node_at(nodes, depth, place)) {
        out.push_str("(")?;
        show(nodes, names, depth, place, out)?;
        out.push_str(")")?;
        Ok(())
    } else {
        show(nodes, names, depth, place, out)?;
        Ok(())
    }
}

// The node at a place under which a tree stands.
fn node_at(nodes: &[Node], depth: usize, place: usize) -> Node
    requires { (t : Tree) × (tree_within depth nodes.now place ≡ Some t) }
    ensures node { slice_get nodes.now place ≡ Some result }
    ensures high { 0 < depth }
{
    at(nodes, place)
}

fn at(nodes: &[Node], place: usize) -> Node
    requires { place < length nodes.now }
    ensures { slice_get nodes.now place ≡ Some result }
{
    nodes[place]
}

// Whether the part under a node is binary or signed.
fn is_compound(node: Node) -> bool
    ensures { result ≡ is_compound_node node }
{
    match node {
        Node::Negate(_) | Node::Binary(_, _, _) => true,
        Node::Number(_) | Node::Handle(_) | Node::Call(_, _, _) => false,
    }
}

// The name of the first such handle.
#[tactic(auto, unfolding(crate::specs::Printed::word_of))]
fn word_of(names: &[Named], handle: u16) -> &str
    ensures { result.now ≡ word_of names.now handle }
{
    for named in names {
        if named.handle == handle {
            return named.name.as_str();
        }
    }
    ""
}

fn operator_text(operator: Binary) -> &'static str
    ensures { result.now ≡ operator_text operator }
{
    match operator {
        Binary::Add => " + ",
        Binary::Sub => " - ",
        Binary::Mul => " * ",
        Binary::Div => " / ",
        Binary::Rem => " % ",
        Binary::Eq => " == ",
        Binary::Ne => " != ",
        Binary::Lt => " < ",
        Binary::Le => " <= ",
        Binary::Gt => " > ",
        Binary::Ge => " >= ",
    }
}

fn function_text(function: Function) -> &'static str
    ensures { result.now ≡ function_text function }
{
    match function {
        Function::Len => "len",
        Function::Sum => "sum",
        Function::Min => "min",
        Function::Max => "max",
        Function::At => "at",
        Function::Above => "above",
        Function::Scale => "scale",
        Function::Shift => "shift",
        Function::Cat => "cat",
        Function::First => "first",
    }
}
