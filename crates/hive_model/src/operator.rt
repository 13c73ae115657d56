//! Operators over numbers.
ghost use Rattle.std.specs.Prelude.{◌≡◌, ℤ, FitsSigned};
ghost use Rattle.std.specs.Int.{w64};
ghost use Rattle.std.specs.Option.{SomeIff};
ghost use Rattle.hive_model.specs.Number.{num};
ghost use Rattle.hive_model.specs.Operator.{operation, divided, truth};
ghost use Rattle.hive_model.specs.Value.{negated, operated};

use crate::{Binary, Fault, Product};

/// The worth of a number that may be out of range.
fn checked(number: Option<i64>) -> Result<Product, Fault>
    ensures { (z : ℤ) → SomeIff number (FitsSigned w64 z) z → result ≡ num z }
{
    match number {
        Some(number) => Ok(Product::Num(number)),
        None => Err(Fault::Overflow),
    }
}

#[tactic(auto, unfolding(crate::specs::Operator::operation))]
fn quotient(left: i64, right: i64) -> Result<Product, Fault>
    ensures { result ≡ operation Binary.Div left right }
{
    if right == 0 {
        return Err(Fault::DivZero);
    }
    checked(left.checked_div(right))
}

#[tactic(auto, unfolding(crate::specs::Operator::operation, crate::specs::Number::num, crate::specs::Number::fits))]
fn remainder(left: i64, right: i64) -> Result<Product, Fault>
    ensures { result ≡ operation Binary.Rem left right }
{
    if right == 0 {
        return Err(Fault::DivZero);
    }
    Ok(Product::Num(left.wrapping_rem(right)))
}

#[tactic(auto, unfolding(crate::specs::Number::num, crate::specs::Number::fits))]
fn truth_of(holds: bool) -> Result<Product, Fault>
    ensures { result ≡ truth holds }
{
    if holds {
        return Ok(Product::Num(1));
    }
    Ok(Product::Num(0))
}

#[tactic(auto, unfolding(crate::specs::Operator::operation))]
fn operation_of(operator: Binary, left: i64, right: i64) -> Result<Product, Fault>
    ensures { result ≡ operation operator left right }
{
    match operator {
        Binary::Add => checked(left.checked_add(right)),
        Binary::Sub => checked(left.checked_sub(right)),
        Binary::Mul => checked(left.checked_mul(right)),
        Binary::Div => quotient(left, right),
        Binary::Rem => remainder(left, right),
        Binary::Eq => truth_of(left == right),
        Binary::Ne => truth_of(left != right),
        Binary::Lt => truth_of(left < right),
        Binary::Le => truth_of(left <= right),
        Binary::Gt => truth_of(left > right),
        Binary::Ge => truth_of(left >= right),
    }
}

impl Product {
    /// The number with its sign turned, or its fault (docs/FORMATS.md, "Expressions"). A list, which no
    /// valid expression negates, is the fault Empty.
    #[tactic(auto, unfolding(crate::specs::Call::unfit))]
    pub fn negated(&self) -> Result<Product, Fault>
        ensures { result ≡ negated self.now }
    {
        match self {
            Product::Num(number) => checked(number.checked_neg()),
            Product::List(_) => Err(Fault::Empty),
        }
    }
}

impl Binary {
    /// The number that this operator gives for two numbers, or its fault (docs/FORMATS.md, "Expressions").
    /// A list, which no valid expression has as an operand, is the fault Empty.
    #[tactic(auto, unfolding(crate::specs::Call::unfit))]
    pub fn apply(self, left: &Product, right: &Product) -> Result<Product, Fault>
        ensures { result ≡ operated self left.now right.now }
    {
        match (left, right) {
            (Product::Num(left), Product::Num(right)) => operation_of(self, *left, *right),
            (Product::Num(_), Product::List(_)) => Err(Fault::Empty),
            (Product::List(_), _) => Err(Fault::Empty),
        }
    }
}
