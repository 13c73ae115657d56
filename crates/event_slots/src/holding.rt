//! Whether a claim is held.
ghost use Rattle.std.specs.Prelude.{◌≡◌, ◌↔◌, Some, true, map, slice_get};
ghost use Rattle.std.specs.Arc.{arc_value};
ghost use Rattle.hive_model.specs.Enabled.{inputs_in};

use event_flow::Held;
use hive_model::{Product, Store};
use std::sync::Arc;

/// Whether these are what the store holds for the handles, in their order.
pub(crate) fn are_inputs(store: &Store, handles: &[u16], inputs: &[Arc<Product>]) -> bool
    ensures { (result ≡ true) ↔ (map arc_value inputs.now ≡ inputs_in store.now handles.now) }
{
    let mut count = 0;
    for handle in handles {
        if let Some(product) = store.product_at(usize::from(*handle)) {
            if !is_at(inputs, count, product) {
                return false;
            }
            count += 1;
        }
    }
    count == inputs.len()
}

// Whether that product stands there.
fn is_at(inputs: &[Arc<Product>], index: usize, product: &Product) -> bool
    ensures { (result ≡ true) ↔ (slice_get (map arc_value inputs.now) index ≡ Some product.now) }
{
    if index >= inputs.len() {
        return false;
    }
    let input = &inputs[index];
    is_same(input, product)
}

fn is_same(input: &Arc<Product>, product: &Product) -> bool
    ensures { (result ≡ true) ↔ (arc_value input.now ≡ product.now) }
{
    **input == *product
}

/// Whether a claim is the one with that ticket and that instance.
pub(crate) fn is_claim(claim: Option<Held>, ticket: u64, clone: Option<u8>) -> bool
    ensures { (result ≡ true) ↔ (claim ≡ Some (record { ticket = ticket; clone = clone })) }
{
    match claim {
        Some(held) => held.ticket == ticket && held.clone == clone,
        None => false,
    }
}
