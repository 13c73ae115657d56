//! The pieces of a text between separators.
ghost use Rattle.std.specs.Prelude.{◌≡◌, ◌<◌, [], ◌∷◌, length, IfNone, IfSome};
ghost use Rattle.text_model.specs.Pieces.{cut};

use memchr::memchr;

/// The text before the first separator and that behind it. `None` where there is no separator.
pub(crate) fn first_piece(separator: u8, text: &[u8]) -> Option<(&[u8], &[u8])>
    ensures none { IfNone result (cut separator text.now ≡ text.now ∷ []) }
    ensures some { IfSome result (λ it. cut separator text.now ≡ it.0.now ∷ cut separator it.1.now) }
    ensures shorter { IfSome result (λ it. length it.1.now < length text.now) }
{
    match memchr(separator, text) {
        Some(index) => {
            let (piece, _) = text.split_at(index);
            let (_, behind) = text.split_at(index + 1);
            Some((piece, behind))
        }
        None => None,
    }
}
