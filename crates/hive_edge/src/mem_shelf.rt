//! A shelf in memory that fails where it is told to.
ghost use Rattle.std.specs.Prelude.{◌≡◌, [], Some};
ghost use Rattle.hive_edge.specs.Failing.{fails_next};
ghost use Rattle.hive_edge.specs.MemShelf.{PutsUnless, Counts};
ghost use Rattle.hive_edge.specs.Shelf.{files_of, text_of, ShelfCause};

use crate::failing::Failing;
use crate::pieces::{find_text, put_text};
use crate::{Shelf, ShelfFault};
use hive_model::Text;
use std::marker::Model;

/// Named texts in memory. The calls whose numbers were named, counted from 1, fail, and so do those for a
/// name that isn't there.
///
/// Contracts see the names with their texts as `files`, and the calls and faults so far as `failing`.
/// Where a name stands more than once, the first text counts.
#[derive(Debug, Drop)]
pub struct MemShelf {
    files: Vec<(Text, Vec<u8>)>,
    failing: Failing,
}

impl Model for MemShelf {
    ghost use Rattle.hive_edge.specs.Shelf.{files_of};
    ghost use Rattle.hive_edge.specs.MemShelf.{MemShelf as Shown};

    ghost Value = { Shown };

    ghost view = { λ it. record { files = files_of it.files.items; failing = it.failing } };
}

impl MemShelf {
    /// A shelf of these files, of which the calls with these numbers fail.
    pub fn new(files: Vec<(Text, Vec<u8>)>, failing: Vec<u64>) -> MemShelf
        ensures files { result.files ≡ files_of files.items }
        ensures failing { result.failing ≡ record { calls = 0; numbers = failing.items; faults = 0 } }
    {
        MemShelf {
            files,
            failing: Failing::new(failing),
        }
    }
}

impl Shelf for MemShelf {
    ghost files = { λ it. Some it.files };

    ghost faults = { λ it. it.failing.faults };

    ghost has = { λ _ _. Unit {0} };

    fn fetch(&mut self, name: &str, limit: usize, out: &mut Vec<u8>) -> Result<(), ShelfFault>
        ensures text { PutsUnless (fails_next self.old.failing) (text_of name.now self.old.files) limit result out.new.items }
        ensures counts { Counts self.old.failing self.new.failing result }
        ensures files { self.new.files ≡ self.old.files }
        ensures cause { ShelfCause self.old.failing.faults self.new.failing.faults result }
    {
        out.clear();
        if self.failing.call().is_err() {
            return Err(ShelfFault::Failed);
        }
        match find_text(self.files.as_slice(), name) {
            Some(text) => put_text(text, limit, out),
            None => {
                let _failed = self.failing.fail();
                Err(ShelfFault::Failed)
            }
        }
    }
}
