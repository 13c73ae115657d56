//! Reading an expression.
ghost use Rattle.std.specs.Prelude.{◌≡◌, ◌<◌, ◌≤◌, ◌+◌, ◌∷◌, ◌++◌, [], List, ℕ, length, IfOk, Option, Result, Ok, Err};
ghost use Rattle.text_model.specs.ExprText.{expr_of, tree_of_kind};
ghost use Rattle.hive_model.specs.Same.{same_kind};
ghost use Rattle.hive_model.specs.Tree.{nodes_of};
ghost use Rattle.hive_model.specs.Kinds.{IsExpression};
ghost use Rattle.text_model.specs.Written.{Written};
ghost use Rattle.hive_model.specs.declared.product.Kind.{Kind};
ghost use Rattle.text_laws.specs.Known.{Knows};
ghost use Rattle.expr_text.specs.Parts.{postfix};
ghost use Rattle.expr_text.specs.declared.assembly.Slot.{Slot};
ghost use Rattle.expr_text.specs.declared.grammar.Part.{Part};
ghost use Rattle.expr_text.specs.Gives.{Refused, GivesNodes};

use crate::assembly::{Slot, assemble};
use crate::grammar::{Part, parts};
use crate::names::unknown_name;
use crate::symbols::tokens;
use hive_model::{Expr, Kind, MOST_NODES, Many};
use std::alloc::Global;
use text_model::{ExprRefusal, MOST_EXPRESSION_BYTES, MOST_NESTING, Named};

/// The expression of `text` over the handles of `names`, whose kind is `wanted`.
///
/// Where two handles have one name, the first counts. A refusal is the first one of docs/FORMATS.md,
/// "Refusals of an expression", but for running out of memory, which may come at any time.
pub fn parse(alloc: Global, text: &str, names: &[Named], wanted: Kind) -> Result<Expr, ExprRefusal>
    ensures meaning { GivesNodes result (expr_of text.now names.now wanted) }
    ensures valid { (see : ℕ → Option Kind) → Knows see names.now → IfOk result (IsExpression see wanted) }
    // Such a text takes no memory.
    ensures too_long { MOST_EXPRESSION_BYTES < length text.now → result ≡ Err ExprRefusal.TooLong }
{
    if text.len() > MOST_EXPRESSION_BYTES {
        return Err(ExprRefusal::TooLong);
    }
    read(alloc, text.as_bytes(), names, wanted)
}

// The phases behind the length.
fn read(alloc: Global, text: &[u8], names: &[Named], wanted: Kind) -> Result<Expr, ExprRefusal>
    requires { length text.now ≤ MOST_EXPRESSION_BYTES }
    ensures meaning { GivesNodes result (expr_of text.now names.now wanted) }
    ensures valid { (see : ℕ → Option Kind) → Knows see names.now → IfOk result (IsExpression see wanted) }
{
    let tokens = tokens(alloc, text)?;
    let tokens = tokens.as_slice();
    let parts = parts(alloc, text.len() as u32, MOST_NESTING, tokens)?;
    if let Some(at) = unknown_name(text, names, tokens) {
        return Err(ExprRefusal::UnknownName { at });
    }
    nodes(alloc, text, names, wanted, parts.as_slice())
}

// The phases behind the names.
fn nodes(
    alloc: Global,
    text: &[u8],
    names: &[Named],
    wanted: Kind,
    parts: &[Part],
) -> Result<Expr, ExprRefusal>
    ensures meaning { (w : Written) → parts.now ≡ postfix w → GivesNodes result (tree_of_kind text.now names.now wanted w) }
    ensures valid { (w : Written) → parts.now ≡ postfix w
        → (see : ℕ → Option Kind) → Knows see names.now → IfOk result (IsExpression see wanted) }
    // So many parts are refused without more memory.
    ensures too_many { MOST_NODES < length parts.now → result ≡ Err ExprRefusal.TooMany }
{
    if parts.len() > MOST_NODES {
        return Err(ExprRefusal::TooMany);
    }
    let (nodes, slots) = assemble(alloc, text, names, parts)?;
    if is_kind(wanted, kind_of(slots.as_slice())) {
        Ok(Expr {
            nodes: Many::from_vec(nodes),
        })
    } else {
        Err(ExprRefusal::Kind {
            at: place_of(parts),
        })
    }
}

// The kind of the one operand that is left.
fn kind_of(slots: &[Slot]) -> Kind
    ensures { (s : Slot) → slots.now ≡ s ∷ [] → result ≡ s.kind }
{
    match slots.first() {
        Some(slot) => slot.kind,
        None => Kind::Num,
    }
}

// The byte of the last part.
fn place_of(parts: &[Part]) -> u32
    ensures { (front : List Part) (p : Part) → parts.now ≡ front ++ p ∷ [] → result ≡ p.at }
{
    match parts.last() {
        Some(part) => part.at,
        None => 0,
    }
}

fn is_kind(wanted: Kind, kind: Kind) -> bool
    ensures { result ≡ same_kind wanted kind }
{
    match wanted {
        Kind::Num => match kind {
            Kind::Num => true,
            Kind::List => false,
        },
        Kind::List => match kind {
            Kind::Num => false,
            Kind::List => true,
        },
    }
}
