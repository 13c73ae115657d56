//! The consumers of each handle.
ghost use Rattle.std.specs.Prelude.{◌≡◌, ◌<◌, ◌≤◌, [], length, map, set, get_or, replicate, IfOk, OnOk, All};
ghost use Rattle.std.specs.List.{range_with_len};
ghost use Rattle.hive_model.specs.declared.limits.TheConstants.{MOST_ALGORITHMS};
ghost use Rattle.producer_graph.specs.Lists.{items};
ghost use Rattle.producer_graph.specs.Takers.{last_is as ends_in, pushed_once, takers_in, with_consumer};

use std::alloc::{AllocError, Global};

// Of each of so many handles, the numbers of the lists in which it stands.
pub(crate) fn list_consumers(
    alloc: Global,
    count: usize,
    inputs: &[Vec<u16>],
) -> Result<Vec<Vec<u16>>, AllocError>
    requires within { All (λ v. All (λ h. h < count) v.items) inputs.now }
    requires few { length inputs.now ≤ MOST_ALGORITHMS }
    ensures { IfOk result (λ it. items it.items ≡ map (takers_in (items inputs.now)) (range_with_len 0 count)) }
{
    let mut consumers = none_of_each(alloc, count)?;
    for number in 0..inputs.len() {
        add_consumer(&mut consumers, inputs[number].as_slice(), number as u16)?;
    }
    Ok(consumers)
}

fn none_of_each(alloc: Global, count: usize) -> Result<Vec<Vec<u16>>, AllocError>
    ensures { IfOk result (λ it. items it.items ≡ replicate count []) }
{
    let mut each = Vec::with_capacity(alloc, count)?;
    for _handle in 0..count {
        each.push(Vec::new(alloc))?;
    }
    Ok(each)
}

// Adds the algorithm to the consumers of its handles, once where it takes a handle twice.
fn add_consumer(
    consumers: &mut Vec<Vec<u16>>,
    handles: &[u16],
    number: u16,
) -> Result<(), AllocError>
    requires { All (λ h. h < length consumers.old.items) handles.now }
    ensures { OnOk result (items consumers.new.items ≡ with_consumer (items consumers.old.items) handles.now number) }
{
    for handle in handles {
        let of_one = &mut consumers[*handle as usize];
        push_once(of_one, number)?;
    }
    Ok(())
}

fn push_once(numbers: &mut Vec<u16>, number: u16) -> Result<(), AllocError>
    ensures { OnOk result (numbers.new.items ≡ pushed_once numbers.old.items number) }
{
    if !last_is(numbers.as_slice(), number) {
        numbers.push(number)?;
    }
    Ok(())
}

fn last_is(numbers: &[u16], number: u16) -> bool
    ensures { result ≡ ends_in numbers.now number }
{
    let count = numbers.len();
    count > 0 && numbers[count - 1] == number
}
