//! The tokens of a text.
ghost use Rattle.std.specs.Prelude.{◌≡◌, ℕ, List, ◌≤◌, ◌+◌, ◌<◌, ◌∷◌, ◌^◌, length, drop, take, pos, nat_le, if◌then◌else◌, Ok, Err, IfOk, IfErr, MatchResult, Some, None};
ghost use Rattle.std.specs.Char.{is_ascii_digit};
ghost use Rattle.std.specs.List.{prefix_len, AllPass};
ghost use Rattle.std.specs.Str.Parse.{digits_value};
ghost use Rattle.text_model.specs.Tokens.{is_word, double_mark, single_mark, literal, mark, symbol_at, tokens_of};
ghost use Rattle.expr_text.specs.Gives.{Gives, Refused};

use hive_model::Binary;
use std::alloc::Global;
use text_model::{ExprRefusal, Symbol, Token};

/// The tokens of a text of at most 1,024 bytes, from the left. The only error besides those of the text
/// is running out of memory.
pub fn tokens(alloc: Global, text: &[u8]) -> Result<Vec<Token>, ExprRefusal>
    requires { length text.now ≤ 1024 }
    ensures { MatchResult result (λ tokens. tokens_of text.now ≡ Ok tokens.items) (Refused (tokens_of text.now)) }
{
    let mut tokens = Vec::new(alloc);
    let mut at = 0;
    while at < text.len() {
        if text[at] == b' ' {
            at += 1;
        } else {
            let (_, rest) = text.split_at(at);
            let (symbol, length) = symbol_at(at, rest)?;
            tokens.push(Token {
                at: at as u32,
                symbol,
            })?;
            at += length;
        }
    }
    Ok(tokens)
}

// The symbol that the bytes begin with, and its length.
#[tactic(auto, using(crate::proofs::Lexemes::TokenLists::fronts), unfolding(text_model::specs::Tokens::symbol_at, text_model::specs::Tokens::literal))]
fn symbol_at(at: usize, bytes: &[u8]) -> Result<(Symbol, usize), ExprRefusal>
    requires some { 0 < length bytes.now }
    requires few { at + length bytes.now ≤ 1024 }
    ensures symbol { Gives result (symbol_at at bytes.now) }
    ensures length { IfOk result (λ it. (0 < it.1) × (it.1 ≤ length bytes.now)) }
{
    let first = bytes[0];
    if first.is_ascii_digit() {
        let length = digits(bytes);
        let (number, _) = bytes.split_at(length);
        match value(number) {
            Some(value) => Ok((Symbol::Number(value), length)),
            None => Err(ExprRefusal::Number { at: at as u32 }),
        }
    } else if first.is_ascii_alphabetic() {
        let length = words(bytes);
        Ok((Symbol::Name(length as u32), length))
    } else {
        mark(at, bytes)
    }
}

// How many digits the bytes begin with.
fn digits(bytes: &[u8]) -> usize
    ensures count { result ≡ prefix_len is_ascii_digit bytes.now }
    ensures few { result ≤ length bytes.now }
{
    for (count, byte) in bytes.iter().enumerate() {
        if !byte.is_ascii_digit() {
            return count;
        }
    }
    bytes.len()
}

// How many bytes of a name the bytes begin with.
fn words(bytes: &[u8]) -> usize
    ensures count { result ≡ prefix_len is_word bytes.now }
    ensures few { result ≤ length bytes.now }
{
    for (count, byte) in bytes.iter().enumerate() {
        if !(byte.is_ascii_alphanumeric() || *byte == b'_') {
            return count;
        }
    }
    bytes.len()
}

// The number that the digits write, if it fits 63 bits.
fn value(digits: &[u8]) -> Option<i64>
    requires { AllPass is_ascii_digit digits.now }
    ensures { result ≡ (if nat_le (digits_value 10 digits.now) 9223372036854775807 then Some (pos (digits_value 10 digits.now)) else None) }
{
    let mut value: u64 = 0;
    for digit in digits {
        if value > MOST / 10 {
            return None;
        }
        value = value * 10 + u64::from(*digit - b'0');
    }
    if value > MOST {
        return None;
    }
    Some(value as i64)
}

// The greatest literal.
const MOST: u64 = 9223372036854775807;

// The mark that the bytes begin with, and its length.
#[tactic(auto, unfolding(text_model::specs::Tokens::mark))]
fn mark(at: usize, bytes: &[u8]) -> Result<(Symbol, usize), ExprRefusal>
    requires some { 0 < length bytes.now }
    requires few { at ≤ 1024 }
    ensures mark { Gives result (mark at bytes.now) }
    ensures length { IfOk result (λ it. (0 < it.1) × (it.1 ≤ length bytes.now)) }
{
    if bytes.len() > 1 && bytes[1] == b'=' {
        if let Some(symbol) = double_mark(bytes[0]) {
            return Ok((symbol, 2));
        }
    }
    match single_mark(bytes[0]) {
        Some(symbol) => Ok((symbol, 1)),
        None => Err(ExprRefusal::Unexpected { at: at as u32 }),
    }
}

// The mark that a byte makes with the `=` behind it.
fn double_mark(byte: u8) -> Option<Symbol>
    ensures { result ≡ double_mark byte }
{
    match byte {
        b'=' => Some(Symbol::Operator(Binary::Eq)),
        b'!' => Some(Symbol::Operator(Binary::Ne)),
        b'<' => Some(Symbol::Operator(Binary::Le)),
        b'>' => Some(Symbol::Operator(Binary::Ge)),
        _ => None,
    }
}

// The mark that a byte makes alone.
fn single_mark(byte: u8) -> Option<Symbol>
    ensures { result ≡ single_mark byte }
{
    match byte {
        b'+' => Some(Symbol::Operator(Binary::Add)),
        b'-' => Some(Symbol::Operator(Binary::Sub)),
        b'*' => Some(Symbol::Operator(Binary::Mul)),
        b'/' => Some(Symbol::Operator(Binary::Div)),
        b'%' => Some(Symbol::Operator(Binary::Rem)),
        b'<' => Some(Symbol::Operator(Binary::Lt)),
        b'>' => Some(Symbol::Operator(Binary::Gt)),
        b'(' => Some(Symbol::Open),
        b')' => Some(Symbol::Close),
        b',' => Some(Symbol::Comma),
        _ => None,
    }
}
