//! What an algorithm takes and produces.
ghost use Rattle.std.specs.Prelude.{◌≡◌, ◌<◌, length, slice_get, Some, IfOk, IfSome, option_map};
ghost use Rattle.producer_graph.specs.Cycle.{name_at};

use hive_model::{Duplicate, Many, Text};
use std::alloc::{AllocError, Global};
use std::marker::Model;

/// An algorithm, the handles that it takes and those that it produces, by name (docs/FORMATS.md, "Options").
#[derive(Debug, Drop)]
pub struct Need {
    pub name: Text,
    pub inputs: Many<Text>,
    pub outputs: Many<Text>,
}

impl Model for Need {
    ghost use Rattle.text_model.specs.Producers.{Need as Shown};

    ghost Value = { Shown };

    ghost view = { λ it. record { name = it.name; inputs = it.inputs.items; outputs = it.outputs.items } };
}

impl Need {
    pub(crate) fn inputs(&self) -> &[Text]
        ensures { result.now ≡ self.now.inputs }
    {
        self.inputs.as_slice()
    }

    pub(crate) fn outputs(&self) -> &[Text]
        ensures { result.now ≡ self.now.outputs }
    {
        self.outputs.as_slice()
    }
}

// A copy of the name of the algorithm of that number.
pub(crate) fn name_of(alloc: Global, needs: &[Need], number: usize) -> Result<Text, AllocError>
    requires { number < length needs.now }
    ensures { IfOk result (λ it. it ≡ name_at needs.now number) }
{
    let need = &needs[number];
    need.name.copy(alloc)
}
