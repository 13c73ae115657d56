//! The producer of each handle.
ghost use Rattle.std.specs.Prelude.{◌≡◌, ◌≤◌, ◌++◌, ◌<◌, length, replicate, map, filter_map, get_or, Some, None, IfOk, OnOk, All};
ghost use Rattle.std.specs.Option.{option_flatten};
ghost use Rattle.hive_model.specs.declared.limits.TheConstants.{MOST_ALGORITHMS};
ghost use Rattle.text_model.specs.Producers.{producers_of};
ghost use Rattle.producer_graph.specs.Lists.{items};

use crate::need::Need;
use hive_model::Text;
use std::alloc::{AllocError, Global};

pub(crate) fn list_producers(
    alloc: Global,
    raws: &[Text],
    needs: &[Need],
) -> Result<Vec<Option<u16>>, AllocError>
    requires { length needs.now ≤ MOST_ALGORITHMS }
    ensures { IfOk result (λ it. it.items ≡ producers_of raws.now needs.now) }
{
    let mut producers = Vec::new(alloc);
    add_producer(&mut producers, None, raws.len())?;
    for number in 0..needs.len() {
        add_producer(
            &mut producers,
            Some(number as u16),
            needs[number].outputs().len(),
        )?;
    }
    Ok(producers)
}

// The same producer, for so many handles.
fn add_producer(
    producers: &mut Vec<Option<u16>>,
    producer: Option<u16>,
    count: usize,
) -> Result<(), AllocError>
    ensures { OnOk result (producers.new.items ≡ producers.old.items ++ replicate count producer) }
{
    for _handle in 0..count {
        producers.push(producer)?;
    }
    Ok(())
}
