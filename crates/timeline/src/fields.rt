//! The fields of a line, taken one after another.
ghost use Rattle.std.specs.Prelude.{◌≡◌, ◌≢◌, [], ◌∷◌, length, List, ℕ, IfNone, IfSome, MatchOption, true, ◌↔◌};
ghost use Rattle.text_model.specs.Pieces.{cut};
ghost use Rattle.text_model.specs.declared.bytes.TheConstants.{SPACE};

use crate::pieces::first_piece;
use std::marker::Model;
use text_model::bytes::SPACE;

/// What stands between the single spaces of a line and wasn't taken yet. Contracts see the list of these
/// parts.
#[derive(Drop)]
pub(crate) struct Fields<'a> {
    // The bytes of the fields that are left, if any are.
    rest: Option<&'a [u8]>,
}

impl<'a> Model for Fields<'a> {
    ghost use Rattle.std.specs.Prelude.{List, ℕ};
    ghost use Rattle.timeline.specs.Left.{left};

    ghost Value = { List (List ℕ) };

    ghost view = { λ it. left it.rest };
}

impl<'a> Fields<'a> {
    pub(crate) fn of(line: &'a [u8]) -> Fields<'a>
        ensures { result ≡ cut SPACE line.now }
    {
        Fields { rest: Some(line) }
    }

    /// Takes the next field, if one is left.
    pub(crate) fn next(&mut self) -> Option<&'a [u8]>
        ensures { MatchOption result (self.old ≡ []) (λ field. self.old ≡ field.now ∷ self.new) }
    {
        let Some(rest) = self.rest else {
            return None;
        };
        match first_piece(SPACE, rest) {
            Some((field, behind)) => {
                self.rest = Some(behind);
                Some(field)
            }
            None => {
                self.rest = None;
                Some(rest)
            }
        }
    }

    /// Whether no field is left.
    pub(crate) fn is_empty(&self) -> bool
        ensures { (result ≡ true) ↔ (self.now ≡ []) }
    {
        self.rest.is_none()
    }

    /// The field that is left, if it is one.
    pub(crate) fn one(&mut self) -> Option<&'a [u8]>
        ensures none { IfNone result (length self.old ≢ 1) }
        ensures some { IfSome result (λ it. self.old ≡ it.now ∷ []) }
    {
        let Some(first) = self.next() else {
            return None;
        };
        if self.is_empty() { Some(first) } else { None }
    }

    /// The fields that are left, if they are two.
    pub(crate) fn two(&mut self) -> Option<(&'a [u8], &'a [u8])>
        ensures none { IfNone result (length self.old ≢ 2) }
        ensures some { IfSome result (λ it. self.old ≡ it.0.now ∷ it.1.now ∷ []) }
    {
        let Some(first) = self.next() else {
            return None;
        };
        match self.one() {
            Some(second) => Some((first, second)),
            None => None,
        }
    }

    /// The fields that are left, if they are four.
    pub(crate) fn four(&mut self) -> Option<(&'a [u8], &'a [u8], &'a [u8], &'a [u8])>
        ensures none { IfNone result (length self.old ≢ 4) }
        ensures some { IfSome result (λ it. self.old ≡ it.0.now ∷ it.1.now ∷ it.2.now ∷ it.3.now ∷ []) }
    {
        let Some(first) = self.next() else {
            return None;
        };
        let Some(second) = self.next() else {
            return None;
        };
        match self.two() {
            Some((third, fourth)) => Some((first, second, third, fourth)),
            None => None,
        }
    }
}
