//! A list that owns its elements and can promise room.
ghost use Rattle.std.specs.Prelude.{◌≡◌, ℕ, ◌+◌, ◌-◌, ◌<◌, ◌≤◌, [], ◌∷◌, ◌++◌, length, map, take, drop, vec_len, vec_capacity, IsOk, IfOk, OnOk, IfErr, OnErr, IsSome, IfSome, IfNone, OnSome, ◌↔◌};
ghost use Rattle.std.specs.Cmp.{on_equiv, on_per};
ghost use Rattle.std.specs.Cmp.Lexicographic.{lists_equiv, lists_per, pointwise};

use crate::Duplicate;
use std::alloc::{AllocError, Global};
use std::marker::Model;

/// A list of values in order.
///
/// Contracts see the list as `items`, and beside it `spare`: how many more pushes take no memory.
/// Equality compares the lists alone.
#[derive(Debug, Drop)]
pub struct Many<T>(Vec<T>);

impl<T> Model for Many<T> {
    ghost use Rattle.std.specs.Prelude.{◌-◌, vec_len, vec_capacity};
    ghost use Rattle.hive_model.specs.Many.{Many as Listed, many_code};

    ghost Value = { Listed T };

    ghost coded = { many_code T.code };

    ghost view = { λ it. record { items = it.0.items; spare = vec_capacity it.0 - vec_len it.0 } };
}

impl<T> Many<T> {
    ghost use Rattle.std.specs.Borrow.{sem};
    ghost use Rattle.hive_model.specs.ManyLent.{LendsItems};

    /// The empty list. It takes no memory.
    pub fn new(alloc: Global) -> Many<T>
        ensures { result.items ≡ [] }
    {
        Many(Vec::new(alloc))
    }

    /// The empty list with room for `count` elements. The only error is running out of memory.
    pub fn with_room(alloc: Global, count: usize) -> Result<Many<T>, AllocError>
        ensures items { IfOk result (λ it. it.items ≡ []) }
        ensures spare { IfOk result (λ it. count ≤ it.spare) }
    {
        Ok(Many(Vec::with_capacity(alloc, count)?))
    }

    /// Makes room for `count` more elements. The only error is running out of memory, which changes nothing.
    pub fn reserve(&mut self, count: usize) -> Result<(), AllocError>
        ensures items { self.new.items ≡ self.old.items }
        ensures ok { OnOk result (count ≤ self.new.spare) }
        ensures grows { OnOk result (self.old.spare ≤ self.new.spare) }
        ensures err { OnErr result (self.new.spare ≡ self.old.spare) }
        ensures succeeds { count ≤ self.old.spare → IsOk result }
    {
        self.0.reserve(count)
    }

    /// Appends `value`. Where spare isn't 0 this takes no memory and succeeds. The only error is want
    /// of memory: the list is then as before, and the value is handed back.
    pub fn push(&mut self, value: T) -> Result<(), (T, AllocError)>
        ensures ok { OnOk result (self.new.items ≡ self.old.items ++ value ∷ []) }
        ensures err { OnErr result (self.new.items ≡ self.old.items) }
        ensures value_returned { IfErr result (λ e. e.0 ≡ value) }
        ensures succeeds { 0 < self.old.spare → IsOk result }
        ensures spare { 0 < self.old.spare → self.new.spare + 1 ≡ self.old.spare }
    {
        let items = &mut self.0;
        if items.len() < items.capacity() {
            items.push_reserved(value);
            return Ok(());
        }
        match items.push(value) {
            Ok(()) => Ok(()),
            Err(failed) => Err((failed.value, AllocError)),
        }
    }

    /// Takes the last element out, which takes no memory. `None` exactly where the list is empty.
    pub fn pop(&mut self) -> Option<T>
        ensures some { IfSome result (λ it. self.old.items ≡ self.new.items ++ it ∷ []) }
        ensures spare { OnSome result (self.new.spare ≡ self.old.spare + 1) }
        ensures none { IfNone result (self.old.items ≡ []) }
        ensures unchanged { IfNone result (self.new ≡ self.old) }
    {
        self.0.pop()
    }

    /// The list.
    pub fn as_slice(&self) -> &[T]
        ensures { result.now ≡ self.now.items }
    {
        self.0.as_slice()
    }

    /// The list, to change its elements. It takes no memory.
    pub fn as_mut_slice(&mut self) -> &mut [T]
        ensures* writes_back { sem 𝓛 (LendsItems T.row self.entry result) }
        ensures value { result.now ≡ self.old.items }
    {
        self.0.as_mut_slice()
    }

    /// The vector inside, with the same elements. It takes no memory.
    pub fn into_vec(self) -> Vec<T>
        ensures items { result.items ≡ self.items }
        ensures spare { vec_capacity result - vec_len result ≡ self.spare }
    {
        self.0
    }

    /// The same elements as a list. It takes no memory.
    pub fn from_vec(items: Vec<T>) -> Many<T>
        ensures items { result.items ≡ items.items }
        ensures spare { result.spare ≡ vec_capacity items - vec_len items }
    {
        Many(items)
    }
}

impl<T: Drop> Many<T> {
    /// Drops every element, and keeps the room. It takes no memory.
    pub fn clear(&mut self)
        ensures items { self.new.items ≡ [] }
        ensures room { length self.new.items + self.new.spare ≡ length self.old.items + self.old.spare }
    {
        self.0.clear();
    }
}

impl<T: Duplicate + Drop> Many<T> {
    /// An equal list of its own. The only error is running out of memory.
    pub fn copy(&self, alloc: Global) -> Result<Many<T>, AllocError>
        ensures { IfOk result (λ it. it.items ≡ self.now.items) }
    {
        let items = self.as_slice();
        let mut copies = Vec::with_capacity(alloc, items.len())?;
        for item in items {
            copies.push(item.copy(alloc)?)?;
        }
        Ok(Many(copies))
    }
}

impl<T: PartialEq> PartialEq for Many<T> {
    ghost eq = { λ x y. pointwise T.eq x.items y.items };

    ghost laws = { on_per (λ x. x.items) (lists_per T.laws) };

    fn eq(&self, other: &Self) -> bool {
        self.0.as_slice() == other.0.as_slice()
    }
}

impl<T: Eq> Eq for Many<T> {
    ghost laws = { on_equiv (λ x. x.items) (lists_equiv T.Eq.laws) };
}
