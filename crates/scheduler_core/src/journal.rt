//! Room in the journal. An entry takes none of the memory that isn't there yet: each entry that is owed has its room
//! before it is owed.
ghost use Rattle.std.specs.Prelude.{◌≡◌, ◌<◌, ◌≤◌, ◌+◌, ◌^◌, [], ◌∷◌, ◌++◌, OnOk};

use hive_model::{Entry, Many};
use std::alloc::AllocError;

/// Makes room for so many entries beyond those that are owed.
pub(crate) fn reserve(journal: &mut Many<Entry>, owed: usize, more: usize) -> Result<(), AllocError>
    requires { owed ≤ journal.old.spare }
    ensures items { journal.new.items ≡ journal.old.items }
    ensures owed { owed ≤ journal.new.spare }
    ensures more { OnOk result (owed + more ≤ journal.new.spare) }
    ensures fits { OnOk result (owed + more < 2 ^ 64) }
{
    let Some(entries) = owed.checked_add(more) else {
        return Err(AllocError);
    };
    journal.reserve(entries)
}

/// An entry that has its room.
pub(crate) fn enter(journal: &mut Many<Entry>, entry: Entry)
    requires { 0 < journal.old.spare }
    ensures entry { journal.new.items ≡ journal.old.items ++ entry ∷ [] }
    ensures room { journal.new.spare + 1 ≡ journal.old.spare }
{
    match journal.push(entry) {
        Ok(()) => {}
        Err(_) => unreachable!(),
    }
}
