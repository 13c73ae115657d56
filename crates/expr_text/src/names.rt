//! The names in an expression.
ghost use Rattle.std.specs.Prelude.{◌≡◌, List, ℕ, Some, None, MatchOption, IsSome, is_some, nat_eq, codes, take, drop};
ghost use Rattle.std.specs.Option.{option_map};
ghost use Rattle.text_model.specs.ExprText.{function_of, handle_of, is_known, is_known_symbol, number_and_kind, piece, unknown_name};
ghost use Rattle.hive_model.specs.Same.{same_text};

use crate::grammar::{behind_open, first};
use hive_model::{Function, Kind};
use text_model::{Named, Symbol, Token};

/// That many bytes of a text, from a place on.
pub fn piece(text: &[u8], at: u32, length: u32) -> &[u8]
    ensures { result.now ≡ piece text.now at length }
{
    let (_, rest) = text.split_at(text.len().min(at as usize));
    let (piece, _) = rest.split_at(rest.len().min(length as usize));
    piece
}

/// The first handle of that name.
#[tactic(auto, unfolding(text_model::specs::ExprText::handle_of))]
pub fn handle_of(names: &[Named], name: &[u8]) -> Option<(u16, Kind)>
    ensures { result ≡ option_map number_and_kind (handle_of names.now name.now) }
{
    for named in names {
        if named.name.as_str().as_bytes() == name {
            return Some((named.handle, named.kind));
        }
    }
    None
}

/// The function of that name.
#[tactic(auto, unfolding(text_model::specs::ExprText::function_of))]
pub fn function_of(name: &[u8]) -> Option<Function>
    ensures { result ≡ function_of name.now }
{
    for function in Function::ALL.as_slice() {
        if function.name().as_bytes() == name {
            return Some(*function);
        }
    }
    None
}

// Whether a name is one, as a function where a bracket is behind it and as a handle elsewhere.
fn is_known(names: &[Named], name: &[u8], rest: &[Token]) -> bool
    ensures { result ≡ is_known names.now name.now rest.now }
{
    match behind_open(rest) {
        Some(_) => function_of(name).is_some(),
        None => handle_of(names, name).is_some(),
    }
}

fn is_known_symbol(text: &[u8], names: &[Named], token: Token, rest: &[Token]) -> bool
    ensures { result ≡ is_known_symbol text.now names.now token.at token.symbol rest.now }
{
    match token.symbol {
        Symbol::Name(length) => is_known(names, piece(text, token.at, length), rest),
        Symbol::Number(_) | Symbol::Operator(_) | Symbol::Open | Symbol::Close | Symbol::Comma =>
            true,
    }
}

/// The byte of the first name that isn't known.
#[tactic(auto, unfolding(text_model::specs::ExprText::unknown_name))]
pub fn unknown_name(text: &[u8], names: &[Named], tokens: &[Token]) -> Option<u32>
    ensures { result ≡ unknown_name text.now names.now tokens.now }
{
    let mut left = tokens;
    'tokens: while let Some((token, rest)) = first(left) {
        if !is_known_symbol(text, names, token, rest) {
            return Some(token.at);
        }
        left = rest;
    }
    None
}
