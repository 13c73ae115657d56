//! How many numbers stand one below the other.
ghost use Rattle.std.specs.Prelude.{◌≡◌, ◌≤◌, length, map, find, get_or, false, IfOk, IfSome, option_map, All, ◌<◌};
ghost use Rattle.std.specs.List.{list_any, range_with_len};
ghost use Rattle.text_model.specs.Walks.{is_deeper_than};
ghost use Rattle.graph_parts.specs.Links.{AreWithin, deeper_by, links};

use crate::flags::{filled, first_set};
use std::alloc::{AllocError, Global};

/// The first number from which on so many further ones stand one below the other. The only error is running
/// out of memory.
///
/// `next` holds, of each number, those that stand below it. This takes `further` rounds over `next`, whatever it holds.
pub fn first_deeper(
    alloc: Global,
    next: &[Vec<u16>],
    further: u8,
) -> Result<Option<usize>, AllocError>
    requires { AreWithin next.now }
    ensures first { IfOk result (λ found. found
        ≡ find (is_deeper_than (links next.now) further) (range_with_len 0 (length next.now))) }
    ensures within { IfOk result (λ found. IfSome found (λ n. n < length next.now)) }
{
    let mut deeper = filled(alloc, true, next.len())?;
    for _round in 0..further {
        deeper = one_deeper(alloc, next, deeper.as_slice())?;
    }
    Ok(first_set(deeper.as_slice()))
}

// Of each number, whether one below it has the flag.
fn one_deeper(alloc: Global, next: &[Vec<u16>], deeper: &[bool]) -> Result<Vec<bool>, AllocError>
    requires within { AreWithin next.now }
    requires size { length next.now ≤ length deeper.now }
    ensures { IfOk result (λ it. it.items ≡ map (λ v. deeper_by deeper.now v.items) next.now) }
{
    let mut flags = Vec::with_capacity(alloc, next.len())?;
    for below in next {
        flags.push(any_deeper(below.as_slice(), deeper))?;
    }
    Ok(flags)
}

fn any_deeper(below: &[u16], deeper: &[bool]) -> bool
    requires { All (λ t. t < length deeper.now) below.now }
    ensures { result ≡ deeper_by deeper.now below.now }
{
    for number in below {
        if deeper[*number as usize] {
            return true;
        }
    }
    false
}
