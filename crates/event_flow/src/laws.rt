//! Laws of flows: each call keeps a flow its job's, and follows the scheduler's step on the event. Each of these
//! functions does nothing: its contract is the law.
ghost use Rattle.std.specs.Prelude.{◌≡◌, ◌<◌, ℕ, Bool, is_some, List, None, Option, Some, length, map, slice_set};
ghost use Rattle.std.specs.List.{count_by};
ghost use Rattle.std.specs.Option.{option_map};
ghost use Rattle.hive_model.specs.Algorithm.{Algorithm};
ghost use Rattle.hive_model.specs.Event.{decisions_of, ends_of};
ghost use Rattle.hive_model.specs.EventRecord.{EventRecord};
ghost use Rattle.hive_model.specs.Execution.{Execution};
ghost use Rattle.hive_model.specs.Fits.{Fits};
ghost use Rattle.hive_model.specs.Handles.{handle_count};
ghost use Rattle.hive_model.specs.Job.{Job};
ghost use Rattle.hive_model.specs.Machine.{Busy, begun, claim_at};
ghost use Rattle.hive_model.specs.Results.{kept, outcomes};
ghost use Rattle.hive_model.specs.Step.{can_claim, claimed, completed, is_settled};
ghost use Rattle.hive_model.specs.declared.outcome.Outcome.{Outcome};
ghost use Rattle.event_flow.specs.Claimable.{can_claim_in, is_settled_in};
ghost use Rattle.event_flow.specs.Events.{IsFlowFor, bare, flow_of};
ghost use Rattle.event_flow.specs.Flow.{Flow, claim_in, opening_of};
ghost use Rattle.event_flow.specs.Steps.{begun_with, completed_in, with_claim, without_claim};
ghost use Rattle.event_flow.specs.Told.{decisions_in, ends_in};
ghost use Rattle.event_flow.specs.declared.held.Held.{Held};

/// A flow stays one of its job, whatever is told of an event. So is the flow of an event that has a place for
/// each algorithm and each handle.
pub fn flows_are_of_their_job()
    ensures opening { (job : Job) → IsFlowFor job (opening_of job) }
    ensures begun { (job : Job) (f : Flow) (present : List Bool) → IsFlowFor job f
        → IsFlowFor job (begun_with f present) }
    ensures claimed { (job : Job) (f : Flow) (n : ℕ) (held : Held) → IsFlowFor job f
        → IsFlowFor job (with_claim f n held) }
    ensures put_back { (job : Job) (f : Flow) (n : ℕ) → IsFlowFor job f
        → IsFlowFor job (without_claim f n) }
    ensures completed { (job : Job) (f : Flow) (n : ℕ) (outcome : Outcome) (first count : ℕ) → IsFlowFor job f
        → IsFlowFor job (completed_in f n outcome first count) }
    ensures events { (job : Job) (b : Busy) → length b.ran ≡ length job.algorithms
        → length b.store ≡ handle_count job → length b.claims ≡ length job.algorithms
        → IsFlowFor job (flow_of job b) }
{}

/// What is told of an event makes its flow the flow of the event after the scheduler's step.
pub fn flows_follow_events()
    ensures begun { (job : Job) (f : Flow) (place : ℕ) (event : EventRecord) → IsFlowFor job f
        → Fits job event → flow_of job (begun job place event) ≡ begun_with f (map is_some event.cells) }
    ensures claimed { (job : Job) (b : Busy) (n : ℕ) (a : Algorithm) (ticket : ℕ) (clone : Option ℕ)
        → flow_of job (claimed b n a ticket clone)
        ≡ with_claim (flow_of job b) n (record { ticket = ticket; clone = clone }) }
    ensures put_back { (job : Job) (b : Busy) (n : ℕ)
        → flow_of job (record b { claims = slice_set b.claims n None }) ≡ without_claim (flow_of job b) n }
    ensures completed { (job : Job) (b : Busy) (n : ℕ) (a : Algorithm) (it : Execution)
        → flow_of job (completed b n a it)
        ≡ completed_in (flow_of job b) n it.outcome a.first_output (length (kept (Some it))) }
{}

/// An algorithm can be claimed exactly where the scheduler may claim it.
pub fn what_can_be_claimed()
    ensures { (job : Job) (b : Busy) (n : ℕ) → n < length job.algorithms
        → can_claim_in (flow_of job b) n ≡ can_claim job b n }
{}

/// An event is settled exactly where the scheduler may retire it.
pub fn what_is_settled()
    ensures { (job : Job) (b : Busy) → is_settled_in (flow_of job b) ≡ is_settled job b }
{}

/// The claims are those of the event, without their inputs.
pub fn claims_of_an_event()
    ensures at { (job : Job) (b : Busy) (n : ℕ)
        → claim_in (flow_of job b) n ≡ option_map bare (claim_at b n) }
    ensures count { (job : Job) (b : Busy)
        → count_by is_some (flow_of job b).claims ≡ count_by is_some b.claims }
{}

/// What is told are the decisions and the ends of the event's result.
pub fn what_is_told()
    ensures decisions { (job : Job) (b : Busy)
        → decisions_in (flow_of job b) ≡ decisions_of job (outcomes b.ran) }
    ensures ends { (job : Job) (b : Busy) → ends_in (flow_of job b) ≡ ends_of job (outcomes b.ran) }
{}
