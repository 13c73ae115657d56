//! What a new table is made of.
ghost use Rattle.std.specs.Prelude.{◌≡◌, ◌≢◌, ◌∷◌, ◌++◌, ◌+◌, ◌<◌, ◌≤◌, ℕ, false, [], None, All, IfOk, OnOk, length, replicate, slice_index, slice_index_or};
ghost use Rattle.hive_model.specs.Many.{Many};
ghost use Rattle.hive_model.specs.declared.limits.TheConstants.{MOST_ALGORITHMS};
ghost use Rattle.algo_states.specs.States.{inputs_of};
ghost use Rattle.algo_states.specs.Table.{IsIndex, lists_of, mentions};

use hive_model::{Algorithm, Many, Outcome};
use std::alloc::{AllocError, Global};

/// The inputs of each algorithm.
pub(crate) fn needs_of(
    alloc: Global,
    algorithms: &[Algorithm],
) -> Result<Vec<Many<u16>>, AllocError>
    ensures { IfOk result (λ it. lists_of it.items ≡ inputs_of algorithms.now) }
{
    let mut needs = Vec::with_capacity(alloc, algorithms.len())?;
    for algorithm in algorithms {
        needs.push(algorithm.inputs.copy(alloc)?)?;
    }
    Ok(needs)
}

/// By handle the algorithms that take it.
pub(crate) fn consumers_of(
    alloc: Global,
    needs: &[Many<u16>],
    handles: usize,
) -> Result<Vec<Many<u16>>, AllocError>
    requires few { length needs.now ≤ MOST_ALGORITHMS }
    requires within { All (λ (it : Many ℕ). All (λ h. h < handles) it.items) needs.now }
    ensures length { IfOk result (λ it. length it.items ≡ handles) }
    ensures index { IfOk result (λ it. IsIndex (lists_of needs.now) (lists_of it.items)) }
{
    let mut consumers = no_consumers(alloc, handles)?;
    for (number, inputs) in needs.iter().enumerate() {
        add_consumer(&mut consumers, number as u16, inputs.as_slice())?;
    }
    Ok(consumers)
}

fn no_consumers(alloc: Global, handles: usize) -> Result<Vec<Many<u16>>, AllocError>
    ensures { IfOk result (λ it. lists_of it.items ≡ replicate handles []) }
{
    let mut consumers = Vec::with_capacity(alloc, handles)?;
    for _handle in 0..handles {
        consumers.push(Many::new(alloc))?;
    }
    Ok(consumers)
}

// The algorithm takes these inputs.
fn add_consumer(
    consumers: &mut Vec<Many<u16>>,
    number: u16,
    inputs: &[u16],
) -> Result<(), AllocError>
    requires { All (λ h. h < length consumers.old.items) inputs.now }
    ensures length { OnOk result (length consumers.new.items ≡ length consumers.old.items) }
    ensures same { OnOk result ((h : ℕ) → h < length consumers.old.items →
        mentions number (slice_index_or (lists_of consumers.new.items) h [])
        ≡ mentions number (slice_index_or (lists_of consumers.old.items) h []) + mentions h inputs.now) }
    ensures others { OnOk result ((a h : ℕ) → a ≢ number →
        mentions a (slice_index_or (lists_of consumers.new.items) h [])
        ≡ mentions a (slice_index_or (lists_of consumers.old.items) h [])) }
{
    for handle in inputs {
        push_to(&mut consumers[usize::from(*handle)], number)?;
    }
    Ok(())
}

fn push_to(list: &mut Many<u16>, number: u16) -> Result<(), AllocError>
    ensures { OnOk result (list.new.items ≡ list.old.items ++ number ∷ []) }
{
    match list.push(number) {
        Ok(()) => Ok(()),
        Err((_, error)) => Err(error),
    }
}

/// How many inputs each algorithm has.
pub(crate) fn count_needs(missing: &mut Vec<usize>, needs: &[Many<u16>])
    requires { length missing.old.items ≡ length needs.now }
    ensures length { length missing.new.items ≡ length needs.now }
    ensures counts { (a : ℕ)
        → slice_index missing.new.items a ≡ length (slice_index_or (lists_of needs.now) a []) }
{
    for (number, inputs) in needs.iter().enumerate() {
        missing[number] = inputs.as_slice().len();
    }
}

/// The same in a new list.
pub(crate) fn counts_of(alloc: Global, needs: &[Many<u16>]) -> Result<Vec<usize>, AllocError>
    ensures length { IfOk result (λ it. length it.items ≡ length needs.now) }
    ensures counts { IfOk result (λ it. (a : ℕ)
        → slice_index it.items a ≡ length (slice_index_or (lists_of needs.now) a [])) }
{
    let mut counts = vec![in alloc; 0; needs.len()]?;
    count_needs(&mut counts, needs);
    Ok(counts)
}

/// So many flags, none of them set.
pub(crate) fn flags(alloc: Global, count: usize) -> Result<Vec<bool>, AllocError>
    ensures { IfOk result (λ it. it.items ≡ replicate count false) }
{
    vec![in alloc; false; count]
}

pub(crate) fn no_outcomes(alloc: Global, count: usize) -> Result<Vec<Option<Outcome>>, AllocError>
    ensures { IfOk result (λ it. it.items ≡ replicate count None) }
{
    vec![in alloc; None; count]
}
