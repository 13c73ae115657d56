//! What an execution leaves in its slot.
ghost use Rattle.std.specs.Prelude.{◌≡◌, ◌+◌, ◌<◌, ◌^◌, Some, length, map, slice_get};
ghost use Rattle.std.specs.Arc.{arc_value};
ghost use Rattle.event_slots.specs.Places.{AreEmpty};
ghost use Rattle.hive_model.specs.Algorithm.{Algorithm as Body};
ghost use Rattle.hive_model.specs.Step.{written};
ghost use Rattle.whiteboard.specs.Slots.{IsTaken, products_in, with_store};

use hive_model::{Job, Many, Product};
use std::sync::Arc;
use whiteboard::Whiteboard;

/// The handle of an algorithm's first output.
pub(crate) fn first_output(job: &Job, number: u16) -> u16
    requires { number < length job.now.algorithms }
    ensures { (a : Body) → slice_get job.now.algorithms number ≡ Some a → result ≡ a.first_output }
{
    let algorithm = &job.algorithms()[usize::from(number)];
    algorithm.first_output
}

/// Puts the outputs of an execution into the places of the slot's store from one on, which are empty. It
/// takes no memory.
pub(crate) fn put_outputs(board: &mut Whiteboard, slot: u8, first: u16, outputs: Many<Arc<Product>>)
    requires taken { IsTaken board.old slot }
    requires few { first + length outputs.items < 2 ^ 16 }
    requires empty { AreEmpty (products_in board.old slot) first (length outputs.items) }
    ensures { board.new ≡ with_store board.old slot
        (written first (map arc_value outputs.items) (products_in board.old slot)) }
{
    let mut outputs = outputs;
    while let Some(product) = outputs.pop() {
        let place = outputs.as_slice().len() as u16;
        board.put(slot, first + place, product);
    }
}
