//! What is true of every journal that a desk can keep. Each of these functions does nothing: its contract is the law.
//! They are those of the crate `core_laws`, under one roof.
pub use core_laws::complete::{complete_runs_agree, complete_runs_have_all_results};
pub use core_laws::events::{events_stay_sound, sound_events_lie_within_the_closure};
pub use core_laws::journals::{
    last_closes, more_records_change_no_run, one_entry_more, tickets_name_their_entries,
};
pub use core_laws::runs::{
    beginnings_are_runs, each_algorithm_is_booked_once, each_record_stands_once,
    ended_events_agree_with_their_records, ended_events_have_their_results, lending_is_exclusive,
    runs_are_sound,
};
pub use core_laws::statuses::{failed_events, ok_events, stalled_events};
