//! Text that a job or a refusal holds.
ghost use Rattle.std.specs.Prelude.{◌≡◌, List, ℕ, nat_eq, IfOk, string_bytes};
ghost use Rattle.std.specs.Cmp.{partial_equiv_from_equiv};
ghost use Rattle.std.specs.Cmp.Lexicographic.{pointwise, nat_list_eq_equiv};

use crate::Duplicate;
use std::alloc::{AllocError, Global};
use std::marker::Model;

/// A text of UTF-8. Contracts see its bytes.
#[derive(Debug, Drop)]
pub struct Text(String);

impl Model for Text {
    ghost Value = { List ℕ };

    ghost view = { λ it. string_bytes it.0 };
}

impl Text {
    /// Copies `text`. The only error is running out of memory.
    pub fn from_str(alloc: Global, text: &str) -> Result<Text, AllocError>
        ensures { IfOk result (λ it. it ≡ text.now) }
    {
        Ok(Text(String::from_str(alloc, text)?))
    }

    /// Takes a string over. It takes no memory.
    pub fn from_string(text: String) -> Text
        ensures { result ≡ string_bytes text }
    {
        Text(text)
    }

    /// The string inside, with the same bytes. It takes no memory.
    pub fn into_string(self) -> String
        ensures { string_bytes result ≡ self }
    {
        self.0
    }

    /// The text.
    pub fn as_str(&self) -> &str
        ensures { result.now ≡ self.now }
    {
        self.0.as_str()
    }
}

impl Duplicate for Text {
    fn copy(&self, alloc: Global) -> Result<Text, AllocError> {
        Text::from_str(alloc, self.as_str())
    }
}

impl PartialEq for Text {
    ghost eq = { λ x y. pointwise nat_eq x y };

    ghost laws = { partial_equiv_from_equiv nat_list_eq_equiv };

    fn eq(&self, other: &Self) -> bool {
        self.as_str() == other.as_str()
    }
}

impl Eq for Text {
    ghost laws = { nat_list_eq_equiv };
}
