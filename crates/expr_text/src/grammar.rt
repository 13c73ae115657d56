//! The parts of an expression, by the grammar. The parts come operands first, so that the last one is
//! the whole.
ghost use Rattle.std.specs.Prelude.{◌≡◌, ◌≤◌, ◌+◌, ◌<◌, ◌∷◌, ◌++◌, [], List, length, Ok, Err, MatchResult, MatchOption, MatchBool, Some, None};
ghost use Rattle.text_model.specs.Grammar.{arguments, behind, behind_close, bracketed, deeper, expr, factor, is_close, is_comma, is_of, is_open, is_sign, most, named, operand, operator_at, place_at, row, signed, written_of};
ghost use Rattle.text_model.specs.Written.{Over, Bare};
ghost use Rattle.expr_text.specs.Gives.{Refused};
ghost use Rattle.expr_text.specs.Parts.{HasRead, HasReadAll, HasWritten, below, postfix};

use hive_model::Binary;
use std::alloc::Global;
use text_model::{ExprRefusal, Form, Level, Symbol, Token};

/// A part of an expression, and how many of the parts before it are its operands, with all that is below
/// them.
#[derive(Clone, Copy, Debug)]
pub struct Part {
    pub at: u32,
    pub form: Form,
    pub operands: usize,
}

/// The parts that the tokens of a text of `stop` bytes write, with at most `depth` brackets and signs open at
/// once. The only error besides those of the grammar is running out of memory.
pub fn parts(
    alloc: Global,
    stop: u32,
    depth: u8,
    tokens: &[Token],
) -> Result<Vec<Part>, ExprRefusal>
    ensures { MatchResult result (λ parts. HasWritten (written_of stop depth tokens.now) parts.items) (Refused (written_of stop depth tokens.now)) }
{
    let mut parts = Vec::new(alloc);
    let rest = row(Level::Compare, stop, depth, tokens, &mut parts)?;
    match first(rest) {
        Some((token, _)) => Err(ExprRefusal::Unexpected { at: token.at }),
        None => Ok(parts),
    }
}

/// The first token and those behind it.
pub fn first(tokens: &[Token]) -> Option<(Token, &[Token])>
    ensures { MatchOption result (tokens.now ≡ []) (λ it. tokens.now ≡ it.0 ∷ it.1.now) }
{
    let (token, rest) = tokens.split_first()?;
    Some((*token, rest))
}

fn is_open(symbol: Symbol) -> bool
    ensures { result ≡ is_open symbol }
{
    match symbol {
        Symbol::Open => true,
        Symbol::Number(_) | Symbol::Name(_) | Symbol::Operator(_) | Symbol::Close | Symbol::Comma =>
            false,
    }
}

fn is_close(symbol: Symbol) -> bool
    ensures { result ≡ is_close symbol }
{
    match symbol {
        Symbol::Close => true,
        Symbol::Number(_) | Symbol::Name(_) | Symbol::Operator(_) | Symbol::Open | Symbol::Comma =>
            false,
    }
}

fn is_comma(symbol: Symbol) -> bool
    ensures { result ≡ is_comma symbol }
{
    match symbol {
        Symbol::Comma => true,
        Symbol::Number(_) | Symbol::Name(_) | Symbol::Operator(_) | Symbol::Open | Symbol::Close =>
            false,
    }
}

/// The tokens behind an opening bracket, if the first one is such.
pub fn behind_open(tokens: &[Token]) -> Option<&[Token]>
    ensures { MatchOption result (behind is_open tokens.now ≡ None) (λ rest. behind is_open tokens.now ≡ Some rest.now) }
{
    let (token, rest) = first(tokens)?;
    if is_open(token.symbol) {
        Some(rest)
    } else {
        None
    }
}

// The tokens behind a comma, if the first one is such.
fn behind_comma(tokens: &[Token]) -> Option<&[Token]>
    ensures { MatchOption result (behind is_comma tokens.now ≡ None) (λ rest. behind is_comma tokens.now ≡ Some rest.now) }
{
    let (token, rest) = first(tokens)?;
    if is_comma(token.symbol) {
        Some(rest)
    } else {
        None
    }
}

// The tokens behind a closing bracket, if the first one is such.
fn behind_close(tokens: &[Token]) -> Option<&[Token]>
    ensures { MatchOption result (behind is_close tokens.now ≡ None) (λ rest. behind is_close tokens.now ≡ Some rest.now) }
{
    let (token, rest) = first(tokens)?;
    if is_close(token.symbol) {
        Some(rest)
    } else {
        None
    }
}

// The byte at which the next token begins, or the text ends.
fn place_at(stop: u32, tokens: &[Token]) -> u32
    ensures { result ≡ place_at stop tokens.now }
{
    match first(tokens) {
        Some((token, _)) => token.at,
        None => stop,
    }
}

fn is_of(level: Level, operator: Binary) -> bool
    ensures { result ≡ is_of level operator }
{
    match operator {
        Binary::Add | Binary::Sub => match level {
            Level::Sum => true,
            Level::Compare | Level::Product => false,
        },
        Binary::Mul | Binary::Div | Binary::Rem => match level {
            Level::Product => true,
            Level::Compare | Level::Sum => false,
        },
        Binary::Eq | Binary::Ne | Binary::Lt | Binary::Le | Binary::Gt | Binary::Ge => match level {
            Level::Compare => true,
            Level::Sum | Level::Product => false,
        },
    }
}

// The operator is also the sign.
fn is_sign(operator: Binary) -> bool
    ensures { result ≡ is_sign operator }
{
    match operator {
        Binary::Sub => true,
        Binary::Add | Binary::Mul | Binary::Div | Binary::Rem => false,
        Binary::Eq | Binary::Ne | Binary::Lt | Binary::Le | Binary::Gt | Binary::Ge => false,
    }
}

// The operator of a level that the tokens begin with, its place, and the tokens behind it.
#[tactic(auto, unfolding(text_model::specs::Grammar::operator_at))]
fn operator_at(level: Level, tokens: &[Token]) -> Option<(u32, Binary, &[Token])>
    ensures { MatchOption result (operator_at level tokens.now ≡ None) (λ it. operator_at level tokens.now ≡ Some (it.0, it.1, it.2.now)) }
{
    let (token, rest) = first(tokens)?;
    match token.symbol {
        Symbol::Operator(operator) => {
            if is_of(level, operator) {
                Some((token.at, operator, rest))
            } else {
                None
            }
        }
        Symbol::Number(_) | Symbol::Name(_) | Symbol::Open | Symbol::Close | Symbol::Comma => None,
    }
}

// How many operators of a level may follow one another.
fn most(level: Level, tokens: &[Token]) -> usize
    ensures { result ≡ most level tokens.now }
{
    match level {
        Level::Compare => 1,
        Level::Sum | Level::Product => tokens.len(),
    }
}

// Operands of a level and the operators between them, grouped from the left.
#[cycle(grammar)]
fn row<'a>(
    level: Level,
    stop: u32,
    depth: u8,
    tokens: &'a [Token],
    parts: &mut Vec<Part>,
) -> Result<&'a [Token], ExprRefusal>
    ensures { MatchResult result
        (λ rest. HasRead (row level (operand level (factor stop depth)) tokens.now) rest.now parts.old.items parts.new.items)
        (Refused (row level (operand level (factor stop depth)) tokens.now)) }
{
    let mut rest = operand(level, stop, depth, tokens, parts)?;
    for turn in 0..most(level, rest) {
        let Some((at, operator, right)) = operator_at(level, rest) else {
            return Ok(rest);
        };
        rest = operand(level, stop, depth, right, parts)?;
        parts.push(Part {
            at,
            form: Form::Operator(operator),
            operands: 2,
        })?;
    }
    Ok(rest)
}

// What stands between the operators of a level.
#[cycle(grammar)]
fn operand<'a>(
    level: Level,
    stop: u32,
    depth: u8,
    tokens: &'a [Token],
    parts: &mut Vec<Part>,
) -> Result<&'a [Token], ExprRefusal>
    ensures { MatchResult result
        (λ rest. HasRead (operand level (factor stop depth) tokens.now) rest.now parts.old.items parts.new.items)
        (Refused (operand level (factor stop depth) tokens.now)) }
{
    match level {
        Level::Compare => row(Level::Sum, stop, depth, tokens, parts),
        Level::Sum => row(Level::Product, stop, depth, tokens, parts),
        Level::Product => factor(stop, depth, tokens, parts),
    }
}

// A number, a name, a sign with its factor, a call, or an expression in brackets.
#[cycle(grammar)]
fn factor<'a>(
    stop: u32,
    depth: u8,
    tokens: &'a [Token],
    parts: &mut Vec<Part>,
) -> Result<&'a [Token], ExprRefusal>
    ensures { MatchResult result
        (λ rest. HasRead (factor stop depth tokens.now) rest.now parts.old.items parts.new.items)
        (Refused (factor stop depth tokens.now)) }
{
    let Some((token, rest)) = first(tokens) else {
        return Err(ExprRefusal::Unexpected { at: stop });
    };
    match token.symbol {
        Symbol::Number(number) => {
            leaf(token.at, Form::Number(number), parts)?;
            Ok(rest)
        }
        Symbol::Name(length) => named(stop, depth, token.at, length, rest, parts),
        Symbol::Operator(operator) => {
            if is_sign(operator) {
                signed(stop, depth, token.at, rest, parts)
            } else {
                Err(ExprRefusal::Unexpected { at: token.at })
            }
        }
        Symbol::Open => bracketed(stop, depth, token.at, rest, parts),
        Symbol::Close | Symbol::Comma => Err(ExprRefusal::Unexpected { at: token.at }),
    }
}

// Adds a part with no operands. The only error is running out of memory.
fn leaf(at: u32, form: Form, parts: &mut Vec<Part>) -> Result<(), ExprRefusal>
    ensures { MatchResult result (λ _. parts.new.items ≡ parts.old.items ++ postfix (Over at form Bare)) (λ e. e ≡ ExprRefusal.NoMemory) }
{
    parts.push(Part {
        at,
        form,
        operands: 0,
    })?;
    Ok(())
}

// How many brackets and signs may be open below the one at a place.
fn deeper(at: u32, depth: u8) -> Result<u8, ExprRefusal>
    ensures { MatchResult result (λ it. it + 1 ≡ depth) (λ e. (depth ≡ 0) × (e ≡ ExprRefusal.TooDeep at)) }
{
    if depth == 0 {
        Err(ExprRefusal::TooDeep { at })
    } else {
        Ok(depth - 1)
    }
}

// The factor behind a sign.
#[cycle(grammar)]
fn signed<'a>(
    stop: u32,
    depth: u8,
    at: u32,
    tokens: &'a [Token],
    parts: &mut Vec<Part>,
) -> Result<&'a [Token], ExprRefusal>
    ensures { MatchResult result
        (λ rest. HasRead (deeper at (below stop depth) (λ factor. signed factor at tokens.now)) rest.now parts.old.items parts.new.items)
        (Refused (deeper at (below stop depth) (λ factor. signed factor at tokens.now))) }
{
    let depth = deeper(at, depth)?;
    let rest = factor(stop, depth, tokens, parts)?;
    parts.push(Part {
        at,
        form: Form::Sign,
        operands: 1,
    })?;
    Ok(rest)
}

// The expression behind an opening bracket, and the closing one.
#[cycle(grammar)]
fn bracketed<'a>(
    stop: u32,
    depth: u8,
    at: u32,
    tokens: &'a [Token],
    parts: &mut Vec<Part>,
) -> Result<&'a [Token], ExprRefusal>
    ensures { MatchResult result
        (λ rest. HasRead (deeper at (below stop depth) (λ factor. bracketed stop factor tokens.now)) rest.now parts.old.items parts.new.items)
        (Refused (deeper at (below stop depth) (λ factor. bracketed stop factor tokens.now))) }
{
    let depth = deeper(at, depth)?;
    let rest = row(Level::Compare, stop, depth, tokens, parts)?;
    let rest = close(stop, rest)?;
    Ok(rest)
}

// The tokens behind a closing bracket.
fn close(stop: u32, tokens: &[Token]) -> Result<&[Token], ExprRefusal>
    ensures { MatchResult result (λ rest. behind_close stop tokens.now ≡ Ok rest.now) (λ e. behind_close stop tokens.now ≡ Err e) }
{
    match behind_close(tokens) {
        Some(rest) => Ok(rest),
        None => Err(ExprRefusal::Unexpected {
            at: place_at(stop, tokens),
        }),
    }
}

// A data handle, or a function with its operands.
#[cycle(grammar)]
fn named<'a>(
    stop: u32,
    depth: u8,
    at: u32,
    length: u32,
    tokens: &'a [Token],
    parts: &mut Vec<Part>,
) -> Result<&'a [Token], ExprRefusal>
    ensures { MatchResult result
        (λ rest. HasRead (named stop (below stop depth) at length tokens.now) rest.now parts.old.items parts.new.items)
        (Refused (named stop (below stop depth) at length tokens.now)) }
{
    let Some(inside) = behind_open(tokens) else {
        leaf(at, Form::Name(length), parts)?;
        return Ok(tokens);
    };
    let depth = deeper(place_at(stop, tokens), depth)?;
    let (operands, rest) = arguments(stop, depth, inside, parts)?;
    let rest = close(stop, rest)?;
    parts.push(Part {
        at,
        form: Form::Call(length),
        operands,
    })?;
    Ok(rest)
}

// The operands of a function, and how many there are.
#[cycle(grammar)]
fn arguments<'a>(
    stop: u32,
    depth: u8,
    tokens: &'a [Token],
    parts: &mut Vec<Part>,
) -> Result<(usize, &'a [Token]), ExprRefusal>
    ensures { MatchResult result
        (λ it. HasReadAll (arguments (expr (factor stop depth)) tokens.now) it.0 it.1.now parts.old.items parts.new.items)
        (Refused (arguments (expr (factor stop depth)) tokens.now)) }
{
    let mut rest = row(Level::Compare, stop, depth, tokens, parts)?;
    let mut operands = 1;
    for turn in 0..rest.len() {
        let Some(next) = behind_comma(rest) else {
            return Ok((operands, rest));
        };
        rest = row(Level::Compare, stop, depth, next, parts)?;
        operands += 1;
    }
    Ok((operands, rest))
}
