//! What the cells of a record hold.
ghost use Rattle.std.specs.Prelude.{◌≡◌, ◌≤◌, [], ◌∷◌, length, IfOk, vec_len};
ghost use Rattle.hive_model.specs.Same.{same_text, texts};
ghost use Rattle.hive_model.specs.declared.product.Kind.TheVariants as kinds;
ghost use Rattle.text_model.specs.declared.bytes.TheConstants.{QUESTION_MARK};
ghost use Rattle.text_model.specs.Numerals.{signed};
ghost use Rattle.text_model.specs.Products.{cell_of, list_of, product_of, products};
ghost use Rattle.text_model.specs.Steps.{collect, or_refuse};
ghost use Rattle.text_model.specs.declared.record_refusal.RecordCause.TheVariants as cause;
ghost use Rattle.event_records.specs.Gives.{Gives};

use crate::numeral::signed_of;
use crate::pieces::cut_at;
use crate::stop::Stop;
use hive_model::{Ints, Kind, MOST_NUMBERS, Product, Raw};
use std::alloc::Global;
use text_model::RecordCause;
use text_model::bytes::{QUESTION_MARK, SPACE};

/// The products of a record's cells, by the kinds of the raw handles.
#[tactic(auto, unfolding(text_model::specs::Steps::collect))]
pub(crate) fn read_products(
    alloc: Global,
    raws: &[Raw],
    cells: &[&[u8]],
) -> Result<Vec<Option<Product>>, Stop>
    requires { length raws.now ≡ length cells.now }
    ensures { Gives (λ them. them.items) result (products raws.now (texts cells.now)) }
{
    let mut read = Vec::with_capacity(alloc, raws.len())?;
    for (index, raw) in raws.iter().enumerate() {
        let product = read_cell(alloc, raw, cells[index])?;
        read.push(product)?;
    }
    Ok(read)
}

#[tactic(auto, unfolding(text_model::specs::Products::cell_of))]
fn read_cell(alloc: Global, raw: &Raw, cell: &[u8]) -> Result<Option<Product>, Stop>
    ensures { Gives (λ it. it) result (cell_of (raw.now, cell.now)) }
{
    if is_absent(cell) {
        return Ok(None);
    }
    let product = read_product(alloc, raw.kind, cell)?;
    Ok(Some(product))
}

fn is_absent(cell: &[u8]) -> bool
    ensures { result ≡ same_text cell.now (QUESTION_MARK ∷ []) }
{
    cell == [QUESTION_MARK].as_slice()
}

#[tactic(auto, unfolding(text_model::specs::Products::product_of))]
fn read_product(alloc: Global, kind: Kind, cell: &[u8]) -> Result<Product, Stop>
    ensures { Gives (λ it. it) result (product_of kind cell.now) }
{
    match kind {
        Kind::Num => match signed_of(cell) {
            Some(number) => Ok(Product::Num(number)),
            None => Err(Stop::Refused(RecordCause::Number)),
        },
        Kind::List => read_list(alloc, cell),
    }
}

#[tactic(auto, unfolding(text_model::specs::Products::product_of))]
fn read_list(alloc: Global, cell: &[u8]) -> Result<Product, Stop>
    ensures { Gives (λ it. it) result (product_of kinds.List cell.now) }
{
    if cell.is_empty() {
        return Ok(Product::List(Ints::from_vec(Vec::new(alloc))));
    }
    let parts = cut_at(alloc, SPACE, cell)?;
    Ok(read_parts(alloc, parts.as_slice())?)
}

#[tactic(auto, unfolding(text_model::specs::Products::list_of))]
fn read_parts(alloc: Global, parts: &[&[u8]]) -> Result<Product, Stop>
    ensures { Gives (λ it. it) result (list_of (texts parts.now)) }
{
    if parts.len() > MOST_NUMBERS {
        return Err(Stop::Refused(RecordCause::Length));
    }
    let numbers = read_numbers(alloc, parts)?;
    Ok(Product::List(Ints::from_vec(numbers)))
}

#[tactic(auto, unfolding(text_model::specs::Steps::collect))]
fn read_numbers(alloc: Global, parts: &[&[u8]]) -> Result<Vec<i64>, Stop>
    ensures numbers { Gives (λ them. them.items) result
        (collect (λ part. or_refuse cause.Number (signed part)) (texts parts.now)) }
    ensures as_many { IfOk result (λ them. vec_len them ≡ length parts.now) }
{
    let mut numbers = Vec::with_capacity(alloc, parts.len())?;
    for part in parts {
        let Some(number) = signed_of(part) else {
            return Err(Stop::Refused(RecordCause::Number));
        };
        numbers.push(number)?;
    }
    Ok(numbers)
}
