//! The loop beside workers.
ghost use Rattle.hall_loop.specs.Window.{IsWindow};

use event_loop::Waiting;
use hive_hall::Pass;
use report_text::Counts;

/// The loop of the thread that admits events to a hall, ends them, and hands their results out in the order of the
/// records, while workers perform (docs/PROCESSING.md, "The loop beside workers").
///
/// Contracts see its pass of the hall, and the records that it admitted (`given_of`), how many results were handed
/// out, and the counts of the events that ended.
#[derive(Drop)]
pub struct HallLoop {
    pub(crate) pass: Pass,
    pub(crate) waiting: Waiting,
    pub(crate) counts: Counts,
    pub(crate) slots: u8,
    /// how many events were admitted
    pub(crate) admitted: u64,
    /// how many results were handed out
    pub(crate) handed: u64,
    /// whether it was said that no further event comes
    pub(crate) closed: bool,
    pub ghost window: { IsWindow slots admitted handed counts waiting },
}
