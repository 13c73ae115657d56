//! The members that are sequences.
ghost use Rattle.std.specs.Prelude.{◌≡◌, map, IfOk};
ghost use Rattle.std.specs.List.{flat_map};
ghost use Rattle.text_model.specs.Forest.{sequences_in};
ghost use Rattle.control_tree.specs.Members.{lists};
ghost use Rattle.control_tree.specs.Below.{items};

use hive_model::{Many, Member};
use std::alloc::{AllocError, Global};

// Of each sequence, the members that are sequences.
pub(crate) fn sequences_of_each(
    alloc: Global,
    members: &[Many<Member>],
) -> Result<Vec<Vec<u16>>, AllocError>
    ensures { IfOk result (λ it. items it.items ≡ map sequences_in (lists members.now)) }
{
    let mut each = Vec::with_capacity(alloc, members.len())?;
    for of_one in members {
        each.push(sequences_of(alloc, of_one.as_slice())?)?;
    }
    Ok(each)
}

fn sequences_of(alloc: Global, members: &[Member]) -> Result<Vec<u16>, AllocError>
    ensures { IfOk result (λ it. it.items ≡ sequences_in members.now) }
{
    let mut sequences = Vec::new(alloc);
    for member in members {
        match member {
            Member::Alg(_) => {}
            Member::Seq(number) => sequences.push(*number)?,
        }
    }
    Ok(sequences)
}

// All of them, one after another.
pub(crate) fn joined(alloc: Global, each: &[Vec<u16>]) -> Result<Vec<u16>, AllocError>
    ensures { IfOk result (λ it. it.items ≡ flat_map (λ v. v.items) each.now) }
{
    let mut all = Vec::new(alloc);
    for of_one in each {
        all.extend_from_slice(of_one.as_slice())?;
    }
    Ok(all)
}
