//! Functions over lists. One that makes a list takes memory once.
ghost use Rattle.std.specs.Prelude.{◌≡◌, ◌≤◌, ◌*ℤ◌, ◌+ℤ◌, IfOk, length, map, int_lt};
ghost use Rattle.std.specs.List.{filter, fold};
ghost use Rattle.hive_model.specs.Number.{num, list};
ghost use Rattle.hive_model.specs.Call.{total, best, lesser, greater, element, front, joined, call_one, call_two};

use crate::{Fault, Function, Ints, MOST_NUMBERS, Product};
use std::alloc::{AllocError, Global};

// The total of the numbers of a list product, which 128 bits always hold.
#[tactic(auto, unfolding(crate::specs::Number::num))]
fn total_of(numbers: &[i64]) -> Result<Product, Fault>
    requires { length numbers.now ≤ MOST_NUMBERS }
    ensures { result ≡ num (total numbers.now) }
{
    let mut sum: i128 = 0;
    for number in numbers {
        sum += i128::from(*number);
    }
    match i64::try_from(sum) {
        Ok(sum) => Ok(Product::Num(sum)),
        Err(_) => Err(Fault::Overflow),
    }
}

fn least_from(first: &i64, rest: &[i64]) -> i64
    ensures { result ≡ fold lesser first.now rest.now }
{
    let mut least = *first;
    for number in rest {
        least = least.min(*number);
    }
    least
}

fn least(numbers: &[i64]) -> Result<Product, Fault>
    ensures { result ≡ best lesser numbers.now }
{
    match numbers.split_first() {
        Some((first, rest)) => Ok(Product::Num(least_from(first, rest))),
        None => Err(Fault::Empty),
    }
}

fn greatest_from(first: &i64, rest: &[i64]) -> i64
    ensures { result ≡ fold greater first.now rest.now }
{
    let mut greatest = *first;
    for number in rest {
        greatest = (*number).max(greatest);
    }
    greatest
}

fn greatest(numbers: &[i64]) -> Result<Product, Fault>
    ensures { result ≡ best greater numbers.now }
{
    match numbers.split_first() {
        Some((first, rest)) => Ok(Product::Num(greatest_from(first, rest))),
        None => Err(Fault::Empty),
    }
}

#[tactic(auto, unfolding(crate::specs::Call::element))]
fn element_of(numbers: &[i64], index: i64) -> Result<Product, Fault>
    ensures { result ≡ element numbers.now index }
{
    let Ok(place) = usize::try_from(index) else {
        return Err(Fault::Index);
    };
    match numbers.get(place) {
        Some(number) => Ok(Product::Num(*number)),
        None => Err(Fault::Index),
    }
}

#[tactic(auto, unfolding(crate::specs::Call::front))]
fn front_of(
    alloc: Global,
    numbers: &[i64],
    count: i64,
) -> Result<Result<Product, Fault>, AllocError>
    requires { length numbers.now ≤ MOST_NUMBERS }
    ensures { IfOk result (λ it. it ≡ front numbers.now count) }
{
    let Ok(count) = usize::try_from(count) else {
        return Ok(Err(Fault::Index));
    };
    let kept = if count < numbers.len() {
        &numbers[..count]
    } else {
        numbers
    };
    Ok(Ok(Product::List(Ints::from_slice(alloc, kept)?)))
}

#[tactic(auto, unfolding(crate::specs::Call::call_two))]
fn above(alloc: Global, numbers: &[i64], bound: &i64) -> Result<Result<Product, Fault>, AllocError>
    requires { length numbers.now ≤ MOST_NUMBERS }
    ensures { IfOk result (λ it. it ≡ call_two Function.Above (Product.List numbers.now) (Product.Num bound.now)) }
{
    let mut kept = Vec::with_capacity(alloc, numbers.len())?;
    for number in numbers {
        if *bound < *number {
            kept.push(*number)?;
        }
    }
    Ok(Ok(Product::List(Ints::from_vec(kept))))
}

#[tactic(auto, unfolding(crate::specs::Number::list))]
fn scaled(
    alloc: Global,
    numbers: &[i64],
    factor: &i64,
) -> Result<Result<Product, Fault>, AllocError>
    requires { length numbers.now ≤ MOST_NUMBERS }
    ensures { IfOk result (λ it. it ≡ list (map (λ x. x *ℤ factor.now) numbers.now)) }
{
    let mut products = Vec::with_capacity(alloc, numbers.len())?;
    for number in numbers {
        match number.checked_mul(*factor) {
            Some(product) => products.push(product)?,
            None => return Ok(Err(Fault::Overflow)),
        }
    }
    Ok(Ok(Product::List(Ints::from_vec(products))))
}

#[tactic(auto, unfolding(crate::specs::Number::list))]
fn shifted(
    alloc: Global,
    numbers: &[i64],
    offset: &i64,
) -> Result<Result<Product, Fault>, AllocError>
    requires { length numbers.now ≤ MOST_NUMBERS }
    ensures { IfOk result (λ it. it ≡ list (map (λ x. x +ℤ offset.now) numbers.now)) }
{
    let mut sums = Vec::with_capacity(alloc, numbers.len())?;
    for number in numbers {
        match number.checked_add(*offset) {
            Some(sum) => sums.push(sum)?,
            None => return Ok(Err(Fault::Overflow)),
        }
    }
    Ok(Ok(Product::List(Ints::from_vec(sums))))
}

#[tactic(auto, unfolding(crate::specs::Call::joined))]
fn joined_of(
    alloc: Global,
    front: &[i64],
    back: &[i64],
) -> Result<Result<Product, Fault>, AllocError>
    requires front { length front.now ≤ MOST_NUMBERS }
    requires back { length back.now ≤ MOST_NUMBERS }
    ensures { IfOk result (λ it. it ≡ joined front.now back.now) }
{
    if front.len() + back.len() > MOST_NUMBERS {
        return Ok(Err(Fault::TooLong));
    }
    let mut numbers = Vec::with_capacity(alloc, front.len() + back.len())?;
    numbers.extend_from_slice(front)?;
    numbers.extend_from_slice(back)?;
    Ok(Ok(Product::List(Ints::from_vec(numbers))))
}

#[tactic(auto, unfolding(crate::specs::Call::call_one, crate::specs::Call::unfit))]
fn call_list(function: Function, numbers: &[i64]) -> Result<Product, Fault>
    requires { length numbers.now ≤ MOST_NUMBERS }
    ensures { result ≡ call_one function (Product.List numbers.now) }
{
    match function {
        Function::Len => Ok(Product::Num(numbers.len() as i64)),
        Function::Sum => total_of(numbers),
        Function::Min => least(numbers),
        Function::Max => greatest(numbers),
        Function::At => Err(Fault::Empty),
        Function::Above => Err(Fault::Empty),
        Function::Scale => Err(Fault::Empty),
        Function::Shift => Err(Fault::Empty),
        Function::Cat => Err(Fault::Empty),
        Function::First => Err(Fault::Empty),
    }
}

#[tactic(auto, unfolding(crate::specs::Call::call_two, crate::specs::Call::unfit))]
fn call_number(
    alloc: Global,
    function: Function,
    numbers: &[i64],
    number: &i64,
) -> Result<Result<Product, Fault>, AllocError>
    requires { length numbers.now ≤ MOST_NUMBERS }
    ensures { IfOk result (λ it. it ≡ call_two function (Product.List numbers.now) (Product.Num number.now)) }
{
    match function {
        Function::At => Ok(element_of(numbers, *number)),
        Function::Above => Ok(above(alloc, numbers, number)?),
        Function::Scale => Ok(scaled(alloc, numbers, number)?),
        Function::Shift => Ok(shifted(alloc, numbers, number)?),
        Function::First => Ok(front_of(alloc, numbers, *number)?),
        Function::Len => Ok(Err(Fault::Empty)),
        Function::Sum => Ok(Err(Fault::Empty)),
        Function::Min => Ok(Err(Fault::Empty)),
        Function::Max => Ok(Err(Fault::Empty)),
        Function::Cat => Ok(Err(Fault::Empty)),
    }
}

#[tactic(auto, unfolding(crate::specs::Call::call_two, crate::specs::Call::unfit))]
fn call_lists(
    alloc: Global,
    function: Function,
    left: &[i64],
    right: &[i64],
) -> Result<Result<Product, Fault>, AllocError>
    requires left { length left.now ≤ MOST_NUMBERS }
    requires right { length right.now ≤ MOST_NUMBERS }
    ensures { IfOk result (λ it. it ≡ call_two function (Product.List left.now) (Product.List right.now)) }
{
    match function {
        Function::Cat => Ok(joined_of(alloc, left, right)?),
        Function::At => Ok(Err(Fault::Empty)),
        Function::Above => Ok(Err(Fault::Empty)),
        Function::Scale => Ok(Err(Fault::Empty)),
        Function::Shift => Ok(Err(Fault::Empty)),
        Function::First => Ok(Err(Fault::Empty)),
        Function::Len => Ok(Err(Fault::Empty)),
        Function::Sum => Ok(Err(Fault::Empty)),
        Function::Min => Ok(Err(Fault::Empty)),
        Function::Max => Ok(Err(Fault::Empty)),
    }
}

impl Function {
    /// The value of this function of one list, or its fault (docs/FORMATS.md, "Expressions"). An operand
    /// of another kind or number, which no valid expression has, is the fault Empty.
    #[tactic(auto, unfolding(crate::specs::Call::call_one, crate::specs::Call::unfit))]
    pub fn apply(self, operand: &Product) -> Result<Product, Fault>
        ensures { result ≡ call_one self operand.now }
    {
        match operand {
            Product::List(numbers) => call_list(self, numbers.as_slice()),
            Product::Num(_) => Err(Fault::Empty),
        }
    }

    /// The value of this function of a list and a second operand, or its fault (docs/FORMATS.md,
    /// "Expressions"). Operands of other kinds, which no valid expression has, are the fault Empty. The
    /// only error is running out of memory.
    #[tactic(auto, unfolding(crate::specs::Call::call_two, crate::specs::Call::unfit))]
    pub fn apply_both(
        self,
        alloc: Global,
        left: &Product,
        right: &Product,
    ) -> Result<Result<Product, Fault>, AllocError>
        ensures { IfOk result (λ it. it ≡ call_two self left.now right.now) }
    {
        match (left, right) {
            (Product::List(numbers), Product::Num(number)) => Ok(call_number(
                alloc,
                self,
                numbers.as_slice(),
                number,
            )?),
            (Product::List(left), Product::List(right)) => Ok(call_lists(
                alloc,
                self,
                left.as_slice(),
                right.as_slice(),
            )?),
            (Product::Num(_), _) => Ok(Err(Fault::Empty)),
        }
    }
}
