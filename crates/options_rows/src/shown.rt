//! Raw options as rows show them.
use hive_model::{Kind, Text};
use std::alloc::{AllocError, Global};
use text_model::{RawAlgorithm, RawOptions, RawOutput, RawSequence};

/// The version and the top, and then the tables in written order; over four of a kind are only counted.
pub(crate) fn shown(alloc: Global, options: &RawOptions) -> Result<String, AllocError> {
    let mut text = format!(in alloc; "version {} top {}", options.version, options.top.as_str())?;
    push_raws(alloc, &mut text, options)?;
    push_algorithms(alloc, &mut text, options.algorithms.as_slice())?;
    push_sequences(alloc, &mut text, options.sequences.as_slice())?;
    Ok(text)
}

fn push_raws(alloc: Global, text: &mut String, options: &RawOptions) -> Result<(), AllocError> {
    let raws = options.raws.as_slice();
    if raws.len() > 4 {
        text.push_str(format!(in alloc; " / {} raws", raws.len())?.as_str())?;
        return Ok(());
    }
    for raw in raws {
        let kind = kind(raw.kind);
        text.push_str(format!(in alloc; " / raw {} {kind}", raw.name.as_str())?.as_str())?;
    }
    push_resources(alloc, text, options)
}

fn push_resources(
    alloc: Global,
    text: &mut String,
    options: &RawOptions,
) -> Result<(), AllocError> {
    let resources = options.resources.as_slice();
    if resources.len() > 4 {
        text.push_str(format!(in alloc; " / {} resources", resources.len())?.as_str())?;
        return Ok(());
    }
    for it in resources {
        let name = it.name.as_str();
        text.push_str(format!(in alloc; " / resource {name} units {}", it.units)?.as_str())?;
    }
    Ok(())
}

fn push_algorithms(
    alloc: Global,
    text: &mut String,
    algorithms: &[RawAlgorithm],
) -> Result<(), AllocError> {
    if algorithms.len() > 4 {
        text.push_str(format!(in alloc; " / {} algorithms", algorithms.len())?.as_str())?;
        return Ok(());
    }
    for it in algorithms {
        let name = it.name.as_str();
        let head = format!(in alloc; " / algorithm {name} cardinality {}", it.cardinality)?;
        text.push_str(head.as_str())?;
        push_names(alloc, text, " inputs", it.inputs.as_slice())?;
        push_names(alloc, text, " resources", it.resources.as_slice())?;
        push_outputs(alloc, text, it.outputs.as_slice())?;
        push_filter(alloc, text, it)?;
    }
    Ok(())
}

fn push_names(
    alloc: Global,
    text: &mut String,
    word: &str,
    names: &[Text],
) -> Result<(), AllocError> {
    text.push_str(word)?;
    if names.len() > 4 {
        text.push_str(format!(in alloc; " {}", names.len())?.as_str())?;
        return Ok(());
    }
    for name in names {
        text.push_str(" ")?;
        text.push_str(name.as_str())?;
    }
    Ok(())
}

fn push_outputs(alloc: Global, text: &mut String, outputs: &[RawOutput]) -> Result<(), AllocError> {
    for it in outputs {
        let name = it.name.as_str();
        let value = it.value.as_str();
        let kind = kind(it.kind);
        text.push_str(format!(in alloc; " output {name} {kind} {value:?}")?.as_str())?;
    }
    Ok(())
}

fn push_filter(alloc: Global, text: &mut String, it: &RawAlgorithm) -> Result<(), AllocError> {
    match &it.filter {
        Some(filter) => {
            text.push_str(format!(in alloc; " filter {:?}", filter.as_str())?.as_str())
        }
        None => Ok(()),
    }
}

fn push_sequences(
    alloc: Global,
    text: &mut String,
    sequences: &[RawSequence],
) -> Result<(), AllocError> {
    if sequences.len() > 4 {
        text.push_str(format!(in alloc; " / {} sequences", sequences.len())?.as_str())?;
        return Ok(());
    }
    for it in sequences {
        text.push_str(format!(in alloc; " / sequence {}", it.name.as_str())?.as_str())?;
        push_names(alloc, text, " members", it.members.as_slice())?;
        push_flags(text, it)?;
    }
    Ok(())
}

fn push_flags(text: &mut String, it: &RawSequence) -> Result<(), AllocError> {
    text.push_str(if it.mode_or { " or" } else { " and" })?;
    text.push_str(if it.short_circuit {
        " short"
    } else {
        " strict"
    })?;
    text.push_str(if it.sequential {
        " sequential"
    } else {
        " concurrent"
    })?;
    text.push_str(if it.invert { " invert" } else { "" })?;
    text.push_str(if it.ignore_filter {
        " ignore_filter"
    } else {
        ""
    })
}

fn kind(kind: Kind) -> &'static str {
    match kind {
        Kind::Num => "num",
        Kind::List => "list",
    }
}
