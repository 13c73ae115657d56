//! The names of tables.
ghost use Rattle.std.specs.Prelude.{◌≡◌, map, IfOk};

use hive_model::{Duplicate, Raw, Resource, Text};
use std::alloc::{AllocError, Global};
use text_model::{RawAlgorithm, RawOutput, RawSequence};

/// What has a name.
pub(crate) trait Titled {
    ghost use Rattle.std.specs.Prelude.{List, ℕ};

    ghost title: { Self → List ℕ };

    fn title(&self) -> &Text
        ensures { result.now ≡ title self.now };
}

impl Titled for Raw {
    ghost title = { λ it. it.name };

    fn title(&self) -> &Text {
        &self.name
    }
}

impl Titled for Resource {
    ghost title = { λ it. it.name };

    fn title(&self) -> &Text {
        &self.name
    }
}

impl Titled for RawOutput {
    ghost title = { λ it. it.name };

    fn title(&self) -> &Text {
        &self.name
    }
}

impl Titled for RawAlgorithm {
    ghost title = { λ it. it.name };

    fn title(&self) -> &Text {
        &self.name
    }
}

impl Titled for RawSequence {
    ghost title = { λ it. it.name };

    fn title(&self) -> &Text {
        &self.name
    }
}

// The names, in order.
pub(crate) fn names_of<T: Titled>(alloc: Global, all: &[T]) -> Result<Vec<Text>, AllocError>
    ensures { IfOk result (λ it. it.items ≡ map T.title all.now) }
{
    let mut names = Vec::with_capacity(alloc, all.len())?;
    for one in all {
        names.push(one.title().copy(alloc)?)?;
    }
    Ok(names)
}
