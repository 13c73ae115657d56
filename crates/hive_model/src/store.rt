//! The event store.
ghost use Rattle.std.specs.Prelude.{◌≡◌, ◌<◌, ◌↔◌, [], IsTrue, Some, None, IfOk, is_some, length, map, option_copied, option_map, replicate, slice_get, slice_set};
ghost use Rattle.std.specs.Arc.{arc_value};
ghost use Rattle.std.specs.Cmp.Lexicographic.{pointwise};
ghost use Rattle.std.specs.Option.{option_eq, option_flatten};
ghost use Rattle.hive_model.specs.Store.{shown};

use crate::Product;
use std::alloc::{AllocError, Global};
use std::marker::Model;
use std::sync::Arc;

/// The data products of one event: a place for each handle, empty or with a shared product.
///
/// Contracts see a list of optional products.
#[derive(Debug, Drop)]
pub struct Store(Vec<Option<Arc<Product>>>);

impl Model for Store {
    ghost use Rattle.std.specs.Prelude.{List, Option, map};
    ghost use Rattle.hive_model.specs.declared.product.Product.{Product};
    ghost use Rattle.hive_model.specs.Store.{shown};

    ghost Value = { List (Option Product) };

    ghost view = { λ it. map shown it.0.items };
}

impl Store {
    /// An empty store with `handles` places. The only error is running out of memory.
    pub fn with_room(alloc: Global, handles: u16) -> Result<Store, AllocError>
        ensures { IfOk result (λ it. it ≡ replicate handles None) }
    {
        let mut places = Vec::with_capacity(alloc, usize::from(handles))?;
        for _handle in 0..handles {
            places.push(None)?;
        }
        Ok(Store(places))
    }

    /// A store with these places. It takes no memory.
    pub fn from_places(places: Vec<Option<Arc<Product>>>) -> Store
        ensures { result ≡ map shown places.items }
    {
        Store(places)
    }

    /// The places inside. It takes no memory.
    pub fn into_places(self) -> Vec<Option<Arc<Product>>>
        ensures { map shown result.items ≡ self }
    {
        self.0
    }

    /// Puts a product into an empty place. It takes no memory.
    pub fn put(&mut self, handle: u16, product: Arc<Product>)
        requires { slice_get self.old handle ≡ Some None }
        ensures { self.new ≡ slice_set self.old handle (Some (arc_value product)) }
    {
        let place = usize::from(handle);
        self.0[place] = Some(product);
    }

    /// The product in a place; `None` exactly where the place is empty.
    pub fn get(&self, handle: u16) -> Option<&Product>
        requires { handle < length self.now }
        ensures { option_copied result ≡ option_flatten (slice_get self.now handle) }
    {
        match &self.0[usize::from(handle)] {
            Some(product) => Some(&**product),
            None => None,
        }
    }

    /// The product in the place with that index, if there is such a place and it holds one.
    pub fn product_at(&self, index: usize) -> Option<&Product>
        ensures { option_copied result ≡ option_flatten (slice_get self.now index) }
    {
        match self.0.get(index) {
            Some(Some(product)) => Some(&**product),
            Some(None) => None,
            None => None,
        }
    }

    /// One more owner of the product in a place, or `None` where it is empty or there is none. The only
    /// error is running out of memory.
    pub fn share(&self, handle: u16) -> Result<Option<Arc<Product>>, AllocError>
        ensures { IfOk result (λ it. option_map arc_value it ≡ option_flatten (slice_get self.now handle)) }
    {
        match self.0.get(usize::from(handle)) {
            Some(Some(product)) => Ok(Some(Arc::try_clone(product)?)),
            Some(None) => Ok(None),
            None => Ok(None),
        }
    }

    /// Whether a place holds a product; a handle out of range has none.
    pub fn has(&self, handle: u16) -> bool
        ensures { result ≡ is_some (option_flatten (slice_get self.now handle)) }
    {
        matches!(self.0.get(usize::from(handle)), Some(Some(_)))
    }

    /// The number of places.
    pub fn len(&self) -> usize
        ensures { result ≡ length self.now }
    {
        self.0.len()
    }

    /// Whether there is no place.
    pub fn is_empty(&self) -> bool
        ensures { IsTrue result ↔ (self.now ≡ []) }
    {
        self.0.is_empty()
    }
}

impl PartialEq for Store {
    ghost use Rattle.std.specs.Cmp.{partial_equiv_from_equiv};
    ghost use Rattle.std.specs.Cmp.Lexicographic.{lists_equiv, options_equiv, pointwise};
    ghost use Rattle.std.specs.Option.{option_eq};
    ghost use Rattle.hive_model.specs.contracts.product.ProductEq.TheImpl.Laws.{laws-law as product_law};

    ghost eq = { pointwise (option_eq ⟦<Product as PartialEq>⟧.eq) };

    ghost laws = { partial_equiv_from_equiv (lists_equiv (options_equiv product_law)) };

    fn eq(&self, other: &Self) -> bool {
        are_same(self.0.as_slice(), other.0.as_slice())
    }
}

impl Eq for Store {
    ghost use Rattle.std.specs.Cmp.Lexicographic.{lists_equiv, options_equiv};
    ghost use Rattle.hive_model.specs.contracts.product.ProductEq.TheImpl.Laws.{laws-law as product_law};

    ghost laws = { lists_equiv (options_equiv product_law) };
}

fn are_same(places: &[Option<Arc<Product>>], others: &[Option<Arc<Product>>]) -> bool
    ensures { result ≡ pointwise (option_eq ⟦<Product as PartialEq>⟧.eq) (map shown places.now) (map shown others.now) }
{
    if places.len() != others.len() {
        return false;
    }
    for (index, place) in places.iter().enumerate() {
        if !is_same(place, &others[index]) {
            return false;
        }
    }
    true
}

fn is_same(place: &Option<Arc<Product>>, other: &Option<Arc<Product>>) -> bool
    ensures { result ≡ option_eq ⟦<Product as PartialEq>⟧.eq (shown place.now) (shown other.now) }
{
    match (place, other) {
        (Some(product), Some(others)) => **product == **others,
        (None, None) => true,
        (Some(_), None) => false,
        (None, Some(_)) => false,
    }
}
