//! How an event ends.
ghost use Rattle.std.specs.Prelude.{◌≡◌};
ghost use Rattle.std.specs.List.{list_any};
ghost use Rattle.event_slots.specs.Orders.{without};
ghost use Rattle.hive_model.specs.Event.{is_failed, is_waiting, status_of};

use hive_model::{End, EventStatus};

/// The status of an event whose algorithms end so (docs/PROCESSING.md, "Statuses").
#[tactic(auto, unfolding(hive_model::specs::Event::status_of))]
pub(crate) fn status_of(ends: &[End]) -> EventStatus
    ensures { result ≡ status_of ends.now }
{
    if has_failed(ends) {
        EventStatus::Failed
    } else if has_waiting(ends) {
        EventStatus::Stalled
    } else {
        EventStatus::Ok
    }
}

fn has_failed(ends: &[End]) -> bool
    ensures { result ≡ list_any is_failed ends.now }
{
    for end in ends {
        if is_failed(end) {
            return true;
        }
    }
    false
}

fn has_waiting(ends: &[End]) -> bool
    ensures { result ≡ list_any is_waiting ends.now }
{
    for end in ends {
        if is_waiting(end) {
            return true;
        }
    }
    false
}

fn is_failed(end: &End) -> bool
    ensures { result ≡ is_failed end.now }
{
    match end {
        End::Failed(_, _) => true,
        End::Initial => false,
        End::ControlReady => false,
        End::Withdrawn => false,
        End::Accepted => false,
        End::Rejected => false,
    }
}

fn is_waiting(end: &End) -> bool
    ensures { result ≡ is_waiting end.now }
{
    match end {
        End::ControlReady => true,
        End::Initial => false,
        End::Withdrawn => false,
        End::Accepted => false,
        End::Rejected => false,
        End::Failed(_, _) => false,
    }
}

/// Takes a slot out of the order, which keeps all others.
pub(crate) fn take_out(order: &mut Vec<u8>, slot: u8)
    ensures { order.new.items ≡ without slot order.old.items }
{
    order.retain(|other| *other != slot);
}
