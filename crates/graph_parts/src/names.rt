//! Names and their numbers.
ghost use Rattle.std.specs.Prelude.{◌≡◌, [], ◌∷◌, ◌++◌, ◌<◌, length, not, true, false, is_some, IfOk, IfSome};
ghost use Rattle.text_model.specs.Names.{is_among, number_of as number_among};

use indexmap::IndexSet;
use std::alloc::{AllocError, Global};
use std::marker::Model;

/// Distinct names, numbered from 0 in the order in which they were added.
///
/// Contracts see the names in that order.
#[derive(Debug, Drop)]
pub struct Names {
    names: IndexSet<String>,
}

impl Model for Names {
    ghost use Rattle.std.specs.Prelude.{List, ℕ, map, string_bytes};

    ghost Value = { List (List ℕ) };

    ghost view = { λ it. map string_bytes it.names.keys };
}

impl Names {
    /// No names.
    pub fn new(alloc: Global) -> Names
        ensures { result ≡ [] }
    {
        Names {
            names: IndexSet::new(alloc),
        }
    }

    /// How many names there are, which is the number of the next.
    pub fn len(&self) -> usize
        ensures { result ≡ length self.now }
    {
        self.names.len()
    }

    /// Adds a name with the next number, and says whether it is new; where it isn't, nothing changes. The only
    /// error is running out of memory.
    pub fn add(&mut self, alloc: Global, name: &str) -> Result<bool, AllocError>
        ensures new { IfOk result (λ it. it ≡ not (is_among self.old name.now)) }
        ensures added { IfOk result (λ it. it ≡ true → self.new ≡ self.old ++ name.now ∷ []) }
        ensures kept { IfOk result (λ it. it ≡ false → self.new ≡ self.old) }
    {
        let name = String::from_str(alloc, name)?;
        let (_, is_new) = self.names.insert_full(name)?;
        Ok(is_new)
    }

    /// The number of a name, if it was added.
    pub fn number_of(&self, name: &str) -> Option<usize>
        ensures number { result ≡ number_among self.now name.now }
        ensures within { IfSome result (λ n. n < length self.now) }
        ensures known { is_some result ≡ is_among self.now name.now }
    {
        self.names.get_index_of(name)
    }
}
