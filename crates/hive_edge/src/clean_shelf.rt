//! A shelf in memory that never fails.
ghost use Rattle.std.specs.Prelude.{◌≡◌, Some, IsSome, IfSome};
ghost use Rattle.hive_edge.specs.Shelf.{files_of, text_of, Puts};

use crate::pieces::{find_text, put_text};
use crate::{Shelf, ShelfFault};
use hive_model::Text;
use std::marker::Model;

/// Named texts in memory. It never fails, but a name that is asked for must be there.
///
/// Contracts see the names with their texts. Where a name stands more than once, the first text counts.
#[derive(Debug, Drop)]
pub struct CleanShelf {
    files: Vec<(Text, Vec<u8>)>,
}

impl Model for CleanShelf {
    ghost use Rattle.hive_edge.specs.Shelf.{Files, files_of};

    ghost Value = { Files };

    ghost view = { λ it. files_of it.files.items };
}

impl CleanShelf {
    /// A shelf of these files.
    pub fn new(files: Vec<(Text, Vec<u8>)>) -> CleanShelf
        ensures { result ≡ files_of files.items }
    {
        CleanShelf { files }
    }
}

impl Shelf for CleanShelf {
    ghost files = { λ it. Some it };

    ghost faults = { λ _. 0 };

    ghost has = { λ it name. IsSome (text_of name it) };

    fn fetch(&mut self, name: &str, limit: usize, out: &mut Vec<u8>) -> Result<(), ShelfFault>
        requires { IsSome (text_of name.now self.old) }
        ensures text { IfSome (text_of name.now self.old) (λ text. Puts text limit result out.new.items) }
        ensures files { self.new ≡ self.old }
    {
        match find_text(self.files.as_slice(), name) {
            Some(text) => put_text(text, limit, out),
            None => unreachable!(),
        }
    }
}
