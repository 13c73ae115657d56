//! What arrives in an event: control flow at algorithms, and products at handles.
ghost use Rattle.std.specs.Prelude.{◌≡◌, ◌≤◌, ◌<◌, ◌+◌, ℕ, Some, false, true, is_some, length, map, replicate, slice_get};
ghost use Rattle.hive_model.specs.declared.limits.TheConstants.{MOST_HANDLES};
ghost use Rattle.number_set.specs.Numbers.{has};
ghost use Rattle.event_flow.specs.Arriving.{HasReached};
ghost use Rattle.event_flow.specs.Steps.{filled, flagged};

use algo_states::StateTable;
use hive_model::Product;
use number_set::NumberSet;

/// Control flow has reached these algorithms.
pub(crate) fn reach_all(states: &mut StateTable, newly: &NumberSet)
    requires within { (n : ℕ) → has newly.now n ≡ true → n < length states.old.needs }
    requires sizes { length states.old.reached ≡ length states.old.needs }
    ensures { HasReached states.old newly.now states.new }
{
    let mut from = 0;
    while let Some(number) = newly.first_from(from) {
        states.reach(number);
        from = number + 1;
    }
}

/// The handles have arrived whose cells are present.
pub(crate) fn arrive_present(states: &mut StateTable, cells: &[Option<Product>])
    requires few { length states.old.arrived ≤ MOST_HANDLES }
    requires within { length cells.now ≤ length states.old.arrived }
    requires none { states.old.arrived ≡ replicate (length states.old.arrived) false }
    ensures { states.new
        ≡ record states.old { arrived = filled (length states.old.arrived) (map is_some cells.now) } }
{
    for (handle, cell) in cells.iter().enumerate() {
        if cell.is_some() {
            states.arrive(handle as u16);
        }
    }
}

/// So many handles have arrived, from one on.
pub(crate) fn arrive_all(states: &mut StateTable, first: u16, count: u16)
    requires few { length states.old.arrived ≤ MOST_HANDLES }
    requires missing { (i : ℕ) → i < count → slice_get states.old.arrived (first + i) ≡ Some false }
    ensures { states.new ≡ record states.old { arrived = flagged first count states.old.arrived } }
{
    for place in 0..count {
        states.arrive(first + place);
    }
}
