//! The words of a report (docs/FORMATS.md, "Report").
ghost use Rattle.std.specs.Prelude.{◌≡◌};
ghost use Rattle.text_model.specs.Report.{decision_word, status_word, end_word, fault_word, place_word};

use hive_model::{Algorithm, Decision, End, EventStatus, Fault, Place};

pub(crate) fn word_of_decision(decision: Decision) -> &'static str
    ensures { result.now ≡ decision_word decision }
{
    match decision {
        Decision::True => "true",
        Decision::False => "false",
        Decision::Undecided => "undecided",
    }
}

pub(crate) fn word_of_status(status: EventStatus) -> &'static str
    ensures { result.now ≡ status_word status }
{
    match status {
        EventStatus::Ok => "ok",
        EventStatus::Failed => "failed",
        EventStatus::Stalled => "stalled",
    }
}

pub(crate) fn word_of_end(end: End) -> &'static str
    ensures { result.now ≡ end_word end }
{
    match end {
        End::Initial => "INITIAL",
        End::ControlReady => "CONTROLREADY",
        End::Withdrawn => "WITHDRAWN",
        End::Accepted => "EVTACCEPTED",
        End::Rejected => "EVTREJECTED",
        End::Failed(_, _) => "ERROR",
    }
}

pub(crate) fn word_of_fault(fault: Fault) -> &'static str
    ensures { result.now ≡ fault_word fault }
{
    match fault {
        Fault::Overflow => "overflow",
        Fault::DivZero => "divzero",
        Fault::Empty => "empty",
        Fault::Index => "index",
        Fault::TooLong => "toolong",
    }
}

pub(crate) fn word_of_place(algorithm: &Algorithm, place: Place) -> &str
    ensures { result.now ≡ place_word algorithm.now place }
{
    match place {
        Place::Filter => "-",
        Place::Output(number) => match algorithm.outputs().get(usize::from(number)) {
            Some(output) => output.name.as_str(),
            None => "",
        },
    }
}
