//! A forest by number.
ghost use Rattle.std.specs.Prelude.{◌≡◌, ◌≤◌, ◌++◌, true, length, IfOk};
ghost use Rattle.hive_model.specs.Valid.{AreDistinctNames};
ghost use Rattle.text_model.specs.Forest.{branch_names};

use crate::words::{names_of, words_of};
use control_tree::{Branch, Tree, build};
use graph_parts::Names;
use hive_model::{MOST_ALGORITHMS, MOST_SEQUENCES, Many, Text};
use std::alloc::{AllocError, Global};
use text_model::TreeRefusal;

/// What the forest of a row comes to.
pub(crate) fn forest_text(
    alloc: Global,
    top: &str,
    algorithms: &str,
    sequences: &str,
) -> Result<String, AllocError> {
    let algorithms = words_of(alloc, algorithms)?;
    let branches = branches_of(alloc, sequences)?;
    if algorithms.len() > MOST_ALGORITHMS || branches.len() > MOST_SEQUENCES {
        return String::from_str(alloc, "too many");
    }
    if !are_distinct(alloc, algorithms.as_slice(), branches.as_slice())? {
        return String::from_str(alloc, "a name stands twice");
    }
    text_of(alloc, algorithms.as_slice(), branches.as_slice(), top)
}

fn text_of(
    alloc: Global,
    algorithms: &[Text],
    branches: &[Branch],
    top: &str,
) -> Result<String, AllocError>
    requires names { AreDistinctNames (algorithms.now ++ branch_names branches.now) }
    requires few_algorithms { length algorithms.now ≤ 1024 }
    requires few_sequences { length branches.now ≤ 256 }
{
    match build(alloc, algorithms, branches, top) {
        Ok(tree) => shown(alloc, &tree),
        Err(refusal) => told(alloc, &refusal),
    }
}

fn branches_of(alloc: Global, text: &str) -> Result<Vec<Branch>, AllocError> {
    let mut branches = Vec::new(alloc);
    for part in text.split(';') {
        match part.split_once(':') {
            Some((name, members)) => branches.push(branch_of(alloc, name.trim(), members)?)?,
            None => push_chain(alloc, &mut branches, part)?,
        }
    }
    Ok(branches)
}

fn branch_of(alloc: Global, name: &str, members: &str) -> Result<Branch, AllocError> {
    Ok(Branch {
        name: Text::from_str(alloc, name)?,
        members: names_of(alloc, members)?,
    })
}

// `chain` and a number: so many sequences, one below the other.
fn push_chain(alloc: Global, branches: &mut Vec<Branch>, part: &str) -> Result<(), AllocError> {
    let length = match part.trim().split_once(' ') {
        Some((_, length)) => length.parse::<u16>().unwrap_or(0),
        None => 0,
    };
    for number in 0..length {
        branches.push(link_of(alloc, number, number.saturating_add(1) < length)?)?;
    }
    Ok(())
}

fn link_of(alloc: Global, number: u16, has_next: bool) -> Result<Branch, AllocError> {
    let name = format!(in alloc; "s{number}")?;
    let next = number.saturating_add(1);
    let members = if has_next {
        Vec::from_array(alloc, [Text::from_string(format!(in alloc; "s{next}")?)])?
    } else {
        Vec::new(alloc)
    };
    Ok(Branch {
        name: Text::from_string(name),
        members: Many::from_vec(members),
    })
}

fn are_distinct(alloc: Global, algorithms: &[Text], branches: &[Branch]) -> Result<bool, AllocError>
    ensures { IfOk result (λ it. it ≡ true → AreDistinctNames (algorithms.now ++ branch_names branches.now)) }
{
    let mut names = Names::new(alloc);
    for name in algorithms {
        if !names.add(alloc, name.as_str())? {
            return Ok(false);
        }
    }
    for branch in branches {
        if !names.add(alloc, branch.name.as_str())? {
            return Ok(false);
        }
    }
    Ok(true)
}

// The top, and of each sequence the number of its members and the first four.
fn shown(alloc: Global, tree: &Tree) -> Result<String, AllocError> {
    let top = tree.top();
    let mut text = format!(in alloc; "forest {top}")?;
    for sequence in 0..tree.len() {
        let members = tree.members(sequence);
        let count = members.len();
        let first = &members[..count.min(4)];
        let part = format!(in alloc; " {count}{first:?}")?;
        text.push_str(part.as_str())?;
    }
    Ok(text)
}

fn told(alloc: Global, refusal: &TreeRefusal) -> Result<String, AllocError> {
    match refusal {
        TreeRefusal::UnknownTop { name } => format!(in alloc; "UnknownTop {}", name.as_str()),
        TreeRefusal::UnknownMember { sequence, name } => {
            format!(in alloc; "UnknownMember {} {}", sequence.as_str(), name.as_str())
        }
        TreeRefusal::SharedSequence { sequence } => {
            format!(in alloc; "SharedSequence {}", sequence.as_str())
        }
        TreeRefusal::SequenceCycle { sequence } => {
            format!(in alloc; "SequenceCycle {}", sequence.as_str())
        }
        TreeRefusal::TopIsMember => String::from_str(alloc, "TopIsMember"),
        TreeRefusal::TooDeep { sequence } => format!(in alloc; "TooDeep {}", sequence.as_str()),
        TreeRefusal::TooManyLeaves => String::from_str(alloc, "TooManyLeaves"),
        TreeRefusal::NoMemory => Err(AllocError),
    }
}
