//! The real files. What they hold can't be stated, so they tell nothing of it.
ghost use Rattle.std.specs.Prelude.{◌≡◌, ◌≤◌, ◌<◌, [], length, Err, IfErr, OnOk, OnErr};
ghost use Rattle.std.specs.Io.KnownBytes.{Consumes, IsAtEnd};
ghost use Rattle.hive_edge.specs.Shelf.{ShelfCause};
ghost use Rattle.hive_real.specs.Reading.{Tells};

use crate::streams::RealIn;
use hive_edge::{InputFault, Shelf, ShelfFault, Source, read_all};
use std::fs;
use std::rt::Files;

/// A shelf over the files that a runtime reaches. A name is a path.
#[derive(Drop)]
pub struct RealFiles<'a, R: Files> {
    rt: &'a R,
    faults: u64,
}

impl<'a, R: Files> RealFiles<'a, R> {
    /// The files of a runtime, which have not failed yet.
    pub fn new(rt: &'a R) -> RealFiles<'a, R>
        ensures { result.faults ≡ 0 }
    {
        RealFiles { rt, faults: 0 }
    }
}

impl<'a, R: Files> Shelf for RealFiles<'a, R> {
    ghost use Rattle.std.specs.Prelude.{None};

    ghost files = { λ _. None };

    ghost faults = { λ shelf. shelf.faults };

    ghost has = { λ _ _. Unit {0} };

    fn fetch(&mut self, name: &str, limit: usize, out: &mut Vec<u8>) -> Result<(), ShelfFault> {
        out.clear();
        let fetched = match fs::open(self.rt, name) {
            Ok(file) => read_up_to(&mut RealIn::new(file), limit, out),
            Err(_) => Err(ShelfFault::Failed),
        };
        match fetched {
            Ok(()) => Ok(()),
            Err(fault) => {
                out.clear();
                if fault == ShelfFault::Failed {
                    self.faults = self.faults.saturating_add(1);
                }
                Err(fault)
            }
        }
    }
}

// Takes what is left of a file, which may be `limit` bytes at most. Where the file is longer, its front is
// taken.
fn read_up_to<S: Source>(file: &mut S, limit: usize, out: &mut Vec<u8>) -> Result<(), ShelfFault>
    requires { out.old.items ≡ [] }
    ensures bytes { Tells result (Consumes (S.rest file.old) (S.rest file.new) out.new.items) }
    ensures end { OnOk result (IsAtEnd (S.rest file.new)) }
    ensures limit { OnOk result (length out.new.items ≤ limit) }
    ensures over { result ≡ Err ShelfFault.Over → limit < length out.new.items }
    ensures cause { ShelfCause (S.faults file.old) (S.faults file.new) result }
{
    match read_all(file, limit, out) {
        Ok(()) => if_short(out.len(), limit),
        Err(InputFault::Failed) => Err(ShelfFault::Failed),
        Err(InputFault::NoMemory) => Err(ShelfFault::NoMemory),
    }
}

fn if_short(count: usize, limit: usize) -> Result<(), ShelfFault>
    ensures ok { OnOk result (count ≤ limit) }
    ensures err { OnErr result (limit < count) }
    ensures over { IfErr result (λ fault. fault ≡ ShelfFault.Over) }
{
    if count <= limit {
        Ok(())
    } else {
        Err(ShelfFault::Over)
    }
}
