//! The slots.
ghost use Rattle.std.specs.Prelude.{◌≡◌, ◌<◌, ◌≤◌, ◌↔◌, true, Some, None, IfOk, IfSome, IfNone, IsErr, MatchResult, is_some, length, option_copied, replicate, slice_get, slice_set};
ghost use Rattle.std.specs.Arc.{arc_value};
ghost use Rattle.std.specs.List.{list_all};
ghost use Rattle.std.specs.Option.{option_flatten};
ghost use Rattle.whiteboard.specs.Slots.{IsTaken, IsFreePlace, with_store, with_product, without_store, store_in, products_in};

use hive_model::{MOST_SLOTS, Product, Store};
use std::alloc::{AllocError, Global};
use std::marker::Model;
use std::sync::Arc;

/// The stores of all events in flight, by slot (docs/PROCESSING.md, "Handles").
#[derive(Drop)]
pub struct Whiteboard {
    slots: Vec<Option<Store>>,
    handles: u16,
}

impl Model for Whiteboard {
    ghost use Rattle.std.specs.Prelude.{◌≡◌, ◌≤◌, All, IfSome, length};
    ghost use Rattle.hive_model.specs.declared.limits.TheConstants.{MOST_SLOTS};
    ghost use Rattle.whiteboard.specs.Slots.{Slots};

    ghost Value = { Slots };

    ghost view = { λ it. record { slots = it.slots.items; handles = it.handles } };

    ghost invariant = { λ it. (length it.slots.items ≤ MOST_SLOTS)
        × All (λ slot. IfSome slot (λ store. length store ≡ it.handles)) it.slots.items };
}

impl Whiteboard {
    /// So many empty slots, for stores with a place for each handle. The only error is running out of memory.
    pub fn new(alloc: Global, slots: u8, handles: u16) -> Result<Whiteboard, AllocError>
        requires some { 1 ≤ slots }
        requires few { slots ≤ MOST_SLOTS }
        ensures slots { IfOk result (λ it. it.slots ≡ replicate slots None) }
        ensures handles { IfOk result (λ it. it.handles ≡ handles) }
    {
        let mut empty = Vec::with_capacity(alloc, usize::from(slots))?;
        for _slot in 0..slots {
            empty.push(None)?;
        }
        Ok(Whiteboard {
            slots: empty,
            handles,
        })
    }

    /// Gives an empty slot to an event, with the empty store that is handed in, or hands it back where no slot is
    /// empty. It takes no memory.
    pub fn take_slot(&mut self, room: Store) -> Result<u8, Store>
        requires empty { room ≡ replicate self.old.handles None }
        ensures taken { MatchResult result
            (λ slot. (slice_get self.old.slots slot ≡ Some None) × (self.new ≡ with_store self.old slot room))
            (λ back. (back ≡ room) × (self.new ≡ self.old)) }
        ensures full { IsErr result ↔ (list_all is_some self.old.slots ≡ true) }
    {
        match first_empty(self.slots.as_slice()) {
            Some(slot) => {
                self.slots[usize::from(slot)] = Some(room);
                Ok(slot)
            }
            None => Err(room),
        }
    }

    /// Puts a product into an empty place of the slot's store. It takes no memory.
    pub fn put(&mut self, slot: u8, handle: u16, product: Arc<Product>)
        requires taken { IsTaken self.old slot }
        requires free { IsFreePlace self.old slot handle }
        ensures { self.new ≡ with_product self.old slot handle (arc_value product) }
    {
        match &mut self.slots[usize::from(slot)] {
            Some(store) => store.put(handle, product),
            None => unreachable!(),
        }
    }

    /// The product in a place of the slot's store; `None` exactly where the place is empty.
    pub fn get(&self, slot: u8, handle: u16) -> Option<&Product>
        requires taken { IsTaken self.now slot }
        requires handle { handle < self.now.handles }
        ensures { option_copied result ≡ option_flatten (slice_get (products_in self.now slot) handle) }
    {
        self.store(slot).get(handle)
    }

    /// The slot's store.
    pub fn store(&self, slot: u8) -> &Store
        requires { IsTaken self.now slot }
        ensures store { store_in self.now slot ≡ Some result.now }
        ensures places { length result.now ≡ self.now.handles }
    {
        match &self.slots[usize::from(slot)] {
            Some(store) => store,
            None => unreachable!(),
        }
    }

    /// Takes the store out, with all its products, and leaves the slot empty. It takes no memory.
    pub fn recycle(&mut self, slot: u8) -> Store
        requires { IsTaken self.old slot }
        ensures store { store_in self.old slot ≡ Some result }
        ensures slots { self.new ≡ without_store self.old slot }
    {
        match self.slots[usize::from(slot)].take() {
            Some(store) => store,
            None => unreachable!(),
        }
    }
}

// The first slot that is empty.
fn first_empty(slots: &[Option<Store>]) -> Option<u8>
    requires { length slots.now ≤ MOST_SLOTS }
    ensures some { IfSome result (λ slot. slice_get slots.now slot ≡ Some None) }
    ensures none { IfNone result (list_all is_some slots.now ≡ true) }
{
    for (slot, store) in slots.iter().enumerate() {
        if store.is_none() {
            return Some(slot as u8);
        }
    }
    None
}
