//! The kinds of all handles.
ghost use Rattle.std.specs.Prelude.{◌≡◌, ◌++◌, map, IfOk, OnOk};
ghost use Rattle.std.specs.List.{flat_map};
ghost use Rattle.hive_model.specs.declared.algorithm.Raw.{Raw as RawTold};
ghost use Rattle.job_build.specs.Kinds.{kinds_in, output_kinds};
ghost use Rattle.text_model.specs.JobAlgorithms.{raw_kinds};

use hive_model::{Kind, Raw};
use std::alloc::{AllocError, Global};
use text_model::{RawAlgorithm, RawOptions, RawOutput};

// The kinds of raw handles and then of outputs, in handle order.
pub(crate) fn kinds_of(alloc: Global, raw: &RawOptions) -> Result<Vec<Kind>, AllocError>
    ensures { IfOk result (λ it. it.items ≡ raw_kinds raw.now) }
{
    let mut kinds = Vec::new(alloc);
    push_raws(&mut kinds, raw.raws.as_slice())?;
    push_algorithms(&mut kinds, raw.algorithms.as_slice())?;
    Ok(kinds)
}

fn push_raws(kinds: &mut Vec<Kind>, raws: &[Raw]) -> Result<(), AllocError>
    ensures { OnOk result (kinds.new.items
        ≡ kinds.old.items ++ map (λ (r : RawTold). r.kind) raws.now) }
{
    for raw in raws {
        kinds.push(raw.kind)?;
    }
    Ok(())
}

fn push_algorithms(kinds: &mut Vec<Kind>, algorithms: &[RawAlgorithm]) -> Result<(), AllocError>
    ensures { OnOk result (kinds.new.items
        ≡ kinds.old.items ++ flat_map output_kinds algorithms.now) }
{
    for algorithm in algorithms {
        push_outputs(kinds, algorithm.outputs.as_slice())?;
    }
    Ok(())
}

fn push_outputs(kinds: &mut Vec<Kind>, outputs: &[RawOutput]) -> Result<(), AllocError>
    ensures { OnOk result (kinds.new.items ≡ kinds.old.items ++ kinds_in outputs.now) }
{
    for output in outputs {
        kinds.push(output.kind)?;
    }
    Ok(())
}
