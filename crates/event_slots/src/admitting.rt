//! What an event brings into its slot.
ghost use Rattle.std.specs.Prelude.{◌≡◌, ◌≤◌, IfOk, None, length, map, replicate};
ghost use Rattle.event_slots.specs.Places.{AreEmpty, laid};
ghost use Rattle.event_slots.specs.Seats.{HasRoomFor};
ghost use Rattle.hive_model.specs.Handles.{handle_count};
ghost use Rattle.hive_model.specs.Store.{shown};
ghost use Rattle.hive_model.specs.Valid.{IsValidJob};
ghost use Rattle.whiteboard.specs.Slots.{IsTaken, products_in, with_store};

use crate::guest::Guest;
use hive_model::{Duplicate, EventRecord, Job, Many, Product, Store};
use std::alloc::{AllocError, Global};
use std::sync::Arc;
use whiteboard::Whiteboard;

/// All that an event takes with it into its slot.
#[derive(Drop)]
pub(crate) struct Luggage {
    pub(crate) guest: Guest,
    /// An empty store, with a place for each handle.
    pub(crate) store: Store,
    /// The products of its record, by raw handle.
    pub(crate) cells: Many<Option<Arc<Product>>>,
}

/// Packs for the event with that record, at a place of the input. The only error is that memory ran out.
pub(crate) fn pack(
    alloc: Global,
    job: &Job,
    place: u64,
    event: &EventRecord,
) -> Result<Luggage, AllocError>
    requires { IsValidJob job.now }
    ensures place { IfOk result (λ it. it.guest.place ≡ place) }
    ensures room { IfOk result
        (λ it. HasRoomFor (length job.now.sequences) (length job.now.algorithms) it.guest) }
    ensures store { IfOk result (λ it. it.store ≡ replicate (handle_count job.now) None) }
    ensures cells { IfOk result (λ it. map shown it.cells.items ≡ event.now.cells) }
{
    let guest = Guest::with_room(alloc, job, place)?;
    let store = Store::with_room(alloc, job.handles())?;
    let cells = shared_cells(alloc, event.cells())?;
    Ok(Luggage {
        guest,
        store,
        cells,
    })
}

// Copies of a record's cells, to be shared.
fn shared_cells(
    alloc: Global,
    cells: &[Option<Product>],
) -> Result<Many<Option<Arc<Product>>>, AllocError>
    ensures { IfOk result (λ it. map shown it.items ≡ cells.now) }
{
    let mut shared = Vec::with_capacity(alloc, cells.len())?;
    for cell in cells {
        shared.push(shared_cell(alloc, cell)?)?;
    }
    Ok(Many::from_vec(shared))
}

fn shared_cell(alloc: Global, cell: &Option<Product>) -> Result<Option<Arc<Product>>, AllocError>
    ensures { IfOk result (λ it. shown it ≡ cell.now) }
{
    match cell {
        Some(product) => Ok(Some(Arc::new(alloc, product.copy(alloc)?)?)),
        None => Ok(None),
    }
}

/// Lays the cells of a record into the first places of the slot's store, which are empty. It takes no memory.
pub(crate) fn lay_cells(board: &mut Whiteboard, slot: u8, cells: Many<Option<Arc<Product>>>)
    requires taken { IsTaken board.old slot }
    requires few { length cells.items ≤ 65535 }
    requires empty { AreEmpty (products_in board.old slot) 0 (length cells.items) }
    ensures { board.new ≡ with_store board.old slot
        (laid 0 (map shown cells.items) (products_in board.old slot)) }
{
    let mut cells = cells;
    while let Some(cell) = cells.pop() {
        let handle = cells.as_slice().len();
        if let Some(product) = cell {
            board.put(slot, handle as u16, product);
        }
    }
}
