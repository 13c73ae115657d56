//! The result of an event.
ghost use Rattle.std.specs.Prelude.{◌≡◌, IfOk};
ghost use Rattle.std.specs.List.{list_any};
ghost use Rattle.hive_model.specs.Event.{end_of, end_unrun, ends_of, event_result, is_failed, is_waiting, result_of, status_of};
ghost use Rattle.hive_model.specs.Reached.{reached};
ghost use Rattle.hive_model.specs.Runnable.{IsRunnable};

use crate::decision::decisions_of;
use crate::live::is_live;
use crate::reached::{is_reached, reached};
use crate::round::run_rounds;
use crate::store::{outcome_at, outcomes_of, store_of};
use hive_model::{
    End, EventRecord, EventResult, EventStatus, Execution, Job, Many, Member, Outcome,
};
use std::alloc::{AllocError, Global};

// How an algorithm ends that hasn't run.
fn end_unrun(is_reached: bool, live: bool) -> End
    ensures { result ≡ end_unrun is_reached live }
{
    if !is_reached {
        return End::Initial;
    }
    if !live {
        return End::Withdrawn;
    }
    End::ControlReady
}

// How the algorithm of that number ends, where these members are reached.
fn end_of(
    alloc: Global,
    job: &Job,
    members: &[Member],
    outcomes: &[Option<Outcome>],
    number: usize,
) -> Result<End, AllocError>
    requires { members.now ≡ reached job.now outcomes.now }
    ensures { IfOk result (λ it. it ≡ end_of job.now outcomes.now number) }
{
    match outcome_at(outcomes, number) {
        Some(Outcome::Accepted) => Ok(End::Accepted),
        Some(Outcome::Rejected) => Ok(End::Rejected),
        Some(Outcome::Failed(place, fault)) => Ok(End::Failed(place, fault)),
        None => {
            let live = is_live(alloc, job, outcomes, number)?;
            Ok(end_unrun(is_reached(members, number), live))
        }
    }
}

// How each algorithm ends, in written order.
#[tactic(auto, unfolding(hive_model::specs::Event::ends_of))]
fn ends_of(alloc: Global, job: &Job, outcomes: &[Option<Outcome>]) -> Result<Vec<End>, AllocError>
    ensures { IfOk result (λ it. it.items ≡ ends_of job.now outcomes.now) }
{
    let members = reached(alloc, job, outcomes)?;
    let mut ends = Vec::new(alloc);
    for number in 0..job.algorithms().len() {
        ends.push(end_of(alloc, job, members.as_slice(), outcomes, number)?)?;
    }
    Ok(ends)
}

fn is_failed(end: End) -> bool
    ensures { result ≡ is_failed end }
{
    match end {
        End::Initial => false,
        End::ControlReady => false,
        End::Withdrawn => false,
        End::Accepted => false,
        End::Rejected => false,
        End::Failed(_, _) => true,
    }
}

fn is_waiting(end: End) -> bool
    ensures { result ≡ is_waiting end }
{
    match end {
        End::Initial => false,
        End::ControlReady => true,
        End::Withdrawn => false,
        End::Accepted => false,
        End::Rejected => false,
        End::Failed(_, _) => false,
    }
}

fn any_failed(ends: &[End]) -> bool
    ensures { result ≡ list_any is_failed ends.now }
{
    for end in ends {
        if is_failed(*end) {
            return true;
        }
    }
    false
}

fn any_waiting(ends: &[End]) -> bool
    ensures { result ≡ list_any is_waiting ends.now }
{
    for end in ends {
        if is_waiting(*end) {
            return true;
        }
    }
    false
}

// How an event ends (docs/PROCESSING.md, "Statuses").
#[tactic(auto, unfolding(hive_model::specs::Event::status_of))]
fn status_of(ends: &[End]) -> EventStatus
    ensures { result ≡ status_of ends.now }
{
    if any_failed(ends) {
        return EventStatus::Failed;
    }
    if any_waiting(ends) {
        return EventStatus::Stalled;
    }
    EventStatus::Ok
}

// What these results of an event tell.
#[tactic(auto, unfolding(hive_model::specs::Event::result_of))]
fn result_of(
    alloc: Global,
    job: &Job,
    event: &EventRecord,
    ran: &[Option<Execution>],
) -> Result<EventResult, AllocError>
    ensures { IfOk result (λ it. it ≡ result_of job.now event.now ran.now) }
{
    let outcomes = outcomes_of(alloc, ran)?;
    let decisions = decisions_of(alloc, job, outcomes.as_slice())?;
    let ends = ends_of(alloc, job, outcomes.as_slice())?;
    let store = store_of(alloc, job, event, ran)?;
    Ok(EventResult {
        event: event.event,
        status: status_of(ends.as_slice()),
        decisions: Many::from_vec(decisions),
        ends: Many::from_vec(ends),
        store,
    })
}

/// The result of one event by itself: its algorithms run in rounds, each all that can, until a
/// round adds none (docs/PROCESSING.md, "Processing of an event").
///
/// The record needs no particular shape: too few cells leave raw handles empty, and those too many
/// are passed over. The only error is that memory ran out.
#[tactic(auto, unfolding(hive_model::specs::Event::event_result))]
pub fn closure(alloc: Global, job: &Job, event: &EventRecord) -> Result<EventResult, AllocError>
    requires { IsRunnable job.now }
    ensures { IfOk result (λ it. it ≡ event_result job.now event.now) }
{
    let ran = run_rounds(alloc, job, event)?;
    Ok(result_of(alloc, job, event, ran.as_slice())?)
}
