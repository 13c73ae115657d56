//! Flags, one for each number.
ghost use Rattle.std.specs.Prelude.{◌≡◌, ◌<◌, length, position, replicate, IfOk, IfSome};

use std::alloc::{AllocError, Global};

/// So many flags, all the same. The only error is running out of memory.
pub fn filled(alloc: Global, flag: bool, count: usize) -> Result<Vec<bool>, AllocError>
    ensures { IfOk result (λ it. it.items ≡ replicate count flag) }
{
    vec![in alloc; flag; count]
}

// The number of the first flag that is set.
pub(crate) fn first_set(flags: &[bool]) -> Option<usize>
    ensures first { result ≡ position (λ flag. flag) flags.now }
    ensures within { IfSome result (λ n. n < length flags.now) }
{
    flags.iter().position(|flag| *flag)
}
