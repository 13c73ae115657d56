//! The sequence of a part of a row.
ghost use Rattle.std.specs.Prelude.{OnOk};
ghost use Rattle.std.specs.List.{AllByRecursion};
ghost use Rattle.hive_model.specs.Runnable.{CanExecute};

use crate::algorithm::algorithm_of;
use anyhow::bail;
use hive_model::{Algorithm, Many, Member, Sequence, Text};
use std::alloc::{AllocError, Global};
use text_model::Named;

/// The sequence of that number: flags, `:`, and members. The algorithms that it makes join the others.
pub(crate) fn sequence_of(
    alloc: Global,
    number: usize,
    text: &str,
    names: &mut Vec<Named>,
    algorithms: &mut Vec<Algorithm>,
) -> anyhow::Result<Sequence>
    requires { AllByRecursion CanExecute algorithms.old.items }
    ensures { OnOk result (AllByRecursion CanExecute algorithms.new.items) }
{
    let Some((flags, members)) = text.split_once(':') else {
        bail!("a sequence without a colon");
    };
    let members = members_of(alloc, members, names, algorithms)?;
    let sequence = plain(alloc, number, members)?;
    with_flags(sequence, flags)
}

fn plain(alloc: Global, number: usize, members: Many<Member>) -> Result<Sequence, AllocError> {
    let name = format!(in alloc; "S{number}")?;
    Ok(Sequence::new(Text::from_string(name), members))
}

fn with_flags(mut sequence: Sequence, flags: &str) -> anyhow::Result<Sequence> {
    for flag in flags.split_whitespace() {
        set_flag(&mut sequence, flag)?;
    }
    Ok(sequence)
}

fn set_flag(sequence: &mut Sequence, flag: &str) -> anyhow::Result<()> {
    match flag {
        "or" => sequence.mode_or = true,
        "strict" => sequence.short_circuit = false,
        "seq" => sequence.sequential = true,
        "invert" => sequence.invert = true,
        "ignore" => sequence.ignore_filter = true,
        "cut" => sequence.cut = true,
        _ => bail!("a flag of another name"),
    }
    Ok(())
}

fn members_of(
    alloc: Global,
    text: &str,
    names: &mut Vec<Named>,
    algorithms: &mut Vec<Algorithm>,
) -> anyhow::Result<Many<Member>>
    requires { AllByRecursion CanExecute algorithms.old.items }
    ensures { OnOk result (AllByRecursion CanExecute algorithms.new.items) }
{
    let mut members = Vec::new(alloc);
    for word in text.split_whitespace() {
        members.push(member_of(alloc, word, names, algorithms)?)?;
    }
    Ok(Many::from_vec(members))
}

fn member_of(
    alloc: Global,
    word: &str,
    names: &mut Vec<Named>,
    algorithms: &mut Vec<Algorithm>,
) -> anyhow::Result<Member>
    requires { AllByRecursion CanExecute algorithms.old.items }
    ensures { OnOk result (AllByRecursion CanExecute algorithms.new.items) }
{
    match numbered(word) {
        Some(member) => Ok(member),
        None => Ok(Member::Alg(add_algorithm(alloc, word, names, algorithms)?)),
    }
}

// The sequence, or the algorithm made before, whose number the word is.
fn numbered(word: &str) -> Option<Member> {
    match word.split_at_checked(1) {
        Some(("s", number)) => Some(Member::Seq(number.parse().ok()?)),
        Some(("a", number)) => Some(Member::Alg(number.parse().ok()?)),
        _ => None,
    }
}

// Adds the algorithm of a word, and gives its number.
fn add_algorithm(
    alloc: Global,
    word: &str,
    names: &mut Vec<Named>,
    algorithms: &mut Vec<Algorithm>,
) -> anyhow::Result<u16>
    requires { AllByRecursion CanExecute algorithms.old.items }
    ensures { OnOk result (AllByRecursion CanExecute algorithms.new.items) }
{
    let number = u16::try_from(algorithms.len())?;
    let algorithm = algorithm_of(alloc, usize::from(number), word, names)?;
    push_algorithm(algorithms, algorithm)?;
    Ok(number)
}

#[tactic(auto, using(crate::proofs::Pushing::can_push))]
fn push_algorithm(algorithms: &mut Vec<Algorithm>, algorithm: Algorithm) -> Result<(), AllocError>
    requires all { AllByRecursion CanExecute algorithms.old.items }
    requires one { CanExecute algorithm }
    ensures { OnOk result (AllByRecursion CanExecute algorithms.new.items) }
{
    algorithms.push(algorithm)?;
    Ok(())
}
