//! The words of a row.
ghost use Rattle.std.specs.Prelude.{◌≤◌, IfOk, IfSome};
ghost use Rattle.text_model.specs.declared.limits.TheConstants.{MOST_EVENTS};

use std::alloc::{AllocError, Global};
use text_model::MOST_EVENTS;

/// What is printed of a records text.
#[derive(Clone, Copy, Debug, PartialEq, Eq)]
pub(crate) enum Shown {
    Text,
    Size,
    Sink,
    Run,
}

/// A records text that is asked for.
#[derive(Clone, Copy, Debug, PartialEq, Eq)]
pub(crate) struct Case {
    pub(crate) shown: Shown,
    pub(crate) start: u64,
    pub(crate) events: u32,
}

/// The case of a line, or `None` where the line is no row.
pub(crate) fn case_of(alloc: Global, line: &str) -> Result<Option<Case>, AllocError>
    ensures { IfOk result (λ o. IfSome o (λ case. case.events ≤ MOST_EVENTS)) }
{
    let words: Vec<&str> = line.split_whitespace().collect(alloc)?;
    let [shown, start, events] = words.as_slice() else {
        return Ok(None);
    };
    Ok(case_with(shown, start, events))
}

fn case_with(shown: &str, start: &str, events: &str) -> Option<Case>
    ensures { IfSome result (λ case. case.events ≤ MOST_EVENTS) }
{
    let shown = shown_by(shown)?;
    let start = start.parse().ok()?;
    let events = events.parse().ok()?;
    if events > MOST_EVENTS {
        return None;
    }
    Some(Case {
        shown,
        start,
        events,
    })
}

fn shown_by(word: &str) -> Option<Shown> {
    match word {
        "text" => Some(Shown::Text),
        "size" => Some(Shown::Size),
        "sink" => Some(Shown::Sink),
        "run" => Some(Shown::Run),
        _ => None,
    }
}
