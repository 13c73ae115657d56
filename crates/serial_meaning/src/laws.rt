//! The laws of an event's meaning, which `event_laws` proves. Each of these functions does nothing: its
//! contract is the law.

pub use event_laws::closure::{
    additions_lie_within_the_closure, agreement, closure_is_due, closure_is_fixed,
    closure_is_least, decisions_stay, executions_give_the_result, nothing_is_cut_off,
    products_stay, reached_stays, runs_as_in_the_closure, settled_is_the_closure,
    settled_without_cut_nodes, sizes, what_is_enabled,
};
pub use event_laws::event_store::{
    outputs_in_the_store, outputs_of_an_execution, raw_handles_in_the_store, size_of_the_store,
    store_of_an_addition,
};
pub use event_laws::nodes::{decision_of_a_sequence, entered_members, reached_from_a_sequence};
pub use event_laws::places::{places_of_what_is_reached, what_a_reached_node_enters};
pub use event_laws::valid_jobs::valid_is_runnable;
