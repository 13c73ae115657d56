//! The first number that stands in a list a second time.
ghost use Rattle.std.specs.Prelude.{◌≡◌, ◌<◌, nat_eq, length, IfOk, IfSome, All};
ghost use Rattle.text_model.specs.Names.{first_repeated as first_twice};

use graph_parts::filled;
use std::alloc::{AllocError, Global};

// The first number that is the same as an earlier one, of numbers below the count.
pub(crate) fn first_repeated(
    alloc: Global,
    numbers: &[u16],
    count: usize,
) -> Result<Option<u16>, AllocError>
    requires { All (λ n. n < count) numbers.now }
    ensures first { IfOk result (λ it. it ≡ first_twice nat_eq numbers.now) }
    ensures within { IfOk result (λ it. IfSome it (λ n. n < count)) }
{
    let mut seen = filled(alloc, false, count)?;
    for number in numbers {
        if seen[*number as usize] {
            return Ok(Some(*number));
        }
        seen[*number as usize] = true;
    }
    Ok(None)
}
