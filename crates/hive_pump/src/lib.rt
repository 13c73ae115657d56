//! The run: reads records, runs their events through the scheduler, and writes their reports in the order of the records.
//!
//! [`pump_plain`] is the call. What it owes is [`IsPumped`](../specs/Pumped.antt): some bytes of the source were taken, the
//! records that they hold were admitted, the journal is a complete run over these, and what was written is the text due
//! for them, each event evaluated by itself, or a prefix of it where the sink failed or memory ran out.
#![tactic(auto)]

mod beside;
mod ending;
mod finish;
mod input;
mod plain;
mod plan;
mod pumped;
mod run;
mod step;

pub use beside::pump;
pub use ending::Ending;
pub use plain::pump_plain;
pub use plan::Plan;
pub use pumped::Pumped;
