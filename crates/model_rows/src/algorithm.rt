//! The algorithm of a member's text.
ghost use Rattle.std.specs.Prelude.{◌≡◌, ◌<◌, IfOk, OnOk, length};
ghost use Rattle.hive_model.specs.Runnable.{AreInOrder, CanExecute, CanPerform};

use anyhow::bail;
use event_laws::valid_jobs::valid_is_runnable;
use expr_text::parse;
use hive_model::{Algorithm, Expr, Kind, MOST_HANDLES, Output, Text};
use std::alloc::{AllocError, Global};
use text_model::Named;

/// The algorithm of a member's text. Its outputs join the names.
pub(crate) fn algorithm_of(
    alloc: Global,
    number: usize,
    text: &str,
    names: &mut Vec<Named>,
) -> anyhow::Result<Algorithm>
    ensures { IfOk result CanExecute }
{
    valid_is_runnable();
    let name = Text::from_string(format!(in alloc; "A{number}")?);
    let mut algorithm = Algorithm::new(alloc, name, next_handle(names)?);
    for part in text.split(',') {
        add_part(alloc, part, names, &mut algorithm)?;
    }
    Ok(algorithm)
}

fn next_handle(names: &[Named]) -> anyhow::Result<u16> {
    Ok(u16::try_from(names.len())?)
}

fn add_part(
    alloc: Global,
    part: &str,
    names: &mut Vec<Named>,
    algorithm: &mut Algorithm,
) -> anyhow::Result<()>
    requires { CanPerform algorithm.old }
    ensures { OnOk result (CanPerform algorithm.new) }
{
    match part.split_once('=') {
        Some(("i", name)) => add_input(name, names, algorithm),
        Some(("o", text)) => add_output(alloc, text, names, algorithm),
        Some(("f", text)) => set_filter(alloc, text, names, algorithm),
        Some(_) => bail!("a part of another kind"),
        None => Ok(()),
    }
}

// Takes the handle of that name.
fn add_input(name: &str, names: &[Named], algorithm: &mut Algorithm) -> anyhow::Result<()>
    requires { CanPerform algorithm.old }
    ensures { OnOk result (CanPerform algorithm.new) }
{
    match handle_of(name, names) {
        Some(handle) => {
            push_input(algorithm, handle)?;
            Ok(())
        }
        None => bail!("an input of another name"),
    }
}

fn handle_of(name: &str, names: &[Named]) -> Option<u16> {
    for named in names {
        if named.name.as_str() == name {
            return Some(named.handle);
        }
    }
    None
}

fn push_input(algorithm: &mut Algorithm, handle: u16) -> Result<(), AllocError>
    requires { CanPerform algorithm.old }
    ensures { OnOk result (CanPerform algorithm.new) }
{
    match algorithm.inputs.push(handle) {
        Ok(()) => Ok(()),
        Err((_, error)) => Err(error),
    }
}

fn add_output(
    alloc: Global,
    text: &str,
    names: &mut Vec<Named>,
    algorithm: &mut Algorithm,
) -> anyhow::Result<()>
    requires { CanPerform algorithm.old }
    ensures { OnOk result (CanPerform algorithm.new) }
{
    if algorithm.outputs().len() >= MOST_HANDLES {
        bail!("too many outputs");
    }
    let value = expression(alloc, text, names)?;
    let handle = next_handle(names)?;
    push_name(alloc, handle, names)?;
    push_output(alloc, handle, value, algorithm)?;
    Ok(())
}

fn name_of(alloc: Global, handle: u16) -> Result<Text, AllocError> {
    Ok(Text::from_string(format!(in alloc; "p{handle}")?))
}

fn push_name(alloc: Global, handle: u16, names: &mut Vec<Named>) -> Result<(), AllocError> {
    let name = name_of(alloc, handle)?;
    names.push(Named {
        name,
        handle,
        kind: Kind::Num,
    })?;
    Ok(())
}

fn push_output(
    alloc: Global,
    handle: u16,
    value: Expr,
    algorithm: &mut Algorithm,
) -> Result<(), AllocError>
    requires performs { CanPerform algorithm.old }
    requires few { length algorithm.old.outputs < MOST_HANDLES }
    requires order { AreInOrder value }
    ensures { OnOk result (CanPerform algorithm.new) }
{
    let name = name_of(alloc, handle)?;
    let output = Output {
        name,
        kind: Kind::Num,
        value,
    };
    match algorithm.outputs.push(output) {
        Ok(()) => Ok(()),
        Err((_, error)) => Err(error),
    }
}

fn set_filter(
    alloc: Global,
    text: &str,
    names: &[Named],
    algorithm: &mut Algorithm,
) -> anyhow::Result<()>
    requires { CanPerform algorithm.old }
    ensures { OnOk result (CanPerform algorithm.new) }
{
    algorithm.filter = Some(expression(alloc, text, names)?);
    Ok(())
}

// The expression of a text over these names.
fn expression(alloc: Global, text: &str, names: &[Named]) -> anyhow::Result<Expr>
    ensures { IfOk result AreInOrder }
{
    Ok(parse(alloc, text, names, Kind::Num)?)
}
