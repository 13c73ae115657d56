//! A sequence that names its members.
ghost use Rattle.std.specs.Prelude.{◌≡◌, ◌<◌, length, IfOk};
ghost use Rattle.text_model.specs.Forest.{branch_names};
ghost use Rattle.text_model.specs.Names.{name_at};

use hive_model::{Duplicate, Many, Text};
use std::alloc::{AllocError, Global};
use std::marker::Model;

/// A sequence and the names of its members, each an algorithm or a sequence (docs/FORMATS.md, "Options").
#[derive(Debug, Drop)]
pub struct Branch {
    pub name: Text,
    pub members: Many<Text>,
}

impl Model for Branch {
    ghost use Rattle.text_model.specs.Forest.{Branch as Shown};

    ghost Value = { Shown };

    ghost view = { λ it. record { name = it.name; members = it.members.items } };
}

impl Branch {
    pub(crate) fn name(&self) -> &str
        ensures { result.now ≡ self.now.name }
    {
        self.name.as_str()
    }

    pub(crate) fn members(&self) -> &[Text]
        ensures { result.now ≡ self.now.members }
    {
        self.members.as_slice()
    }
}

// A copy of the name of the sequence of that number.
pub(crate) fn name_of(alloc: Global, branches: &[Branch], number: usize) -> Result<Text, AllocError>
    requires { number < length branches.now }
    ensures { IfOk result (λ it. it ≡ name_at (branch_names branches.now) number) }
{
    let branch = &branches[number];
    branch.name.copy(alloc)
}
