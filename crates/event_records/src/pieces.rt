//! The pieces of a text between separators.
ghost use Rattle.std.specs.Prelude.{◌≡◌, ◌<◌, [], ◌∷◌, length, IfNone, IfOk, IfSome};
ghost use Rattle.hive_model.specs.Same.{texts};
ghost use Rattle.text_model.specs.Pieces.{cut};

use memchr::memchr;
use std::alloc::{AllocError, Global};

/// The pieces, one more than there are separators. The only error is running out of memory.
pub(crate) fn cut_at(alloc: Global, separator: u8, text: &[u8]) -> Result<Vec<&[u8]>, AllocError>
    ensures { IfOk result (λ pieces. texts pieces.items ≡ cut separator text.now) }
{
    let separators = text.iter().filter(|b| **b == separator).count();
    let mut pieces = Vec::with_capacity(alloc, separators.saturating_add(1))?;
    let mut rest = text;
    while let Some((piece, behind)) = first_piece(separator, rest) {
        pieces.push(piece)?;
        rest = behind;
    }
    pieces.push(rest)?;
    Ok(pieces)
}

// The text before the first separator, and that behind it.
fn first_piece(separator: u8, text: &[u8]) -> Option<(&[u8], &[u8])>
    ensures none { IfNone result (cut separator text.now ≡ text.now ∷ []) }
    ensures some { IfSome result (λ it. cut separator text.now ≡ it.0.now ∷ cut separator it.1.now) }
    ensures shorter { IfSome result (λ it. length it.1.now < length text.now) }
{
    match memchr(separator, text) {
        Some(index) => {
            let (piece, _) = text.split_at(index);
            let (_, behind) = text.split_at(index + 1);
            Some((piece, behind))
        }
        None => None,
    }
}
