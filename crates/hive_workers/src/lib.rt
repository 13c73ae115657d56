//! Workers: they claim algorithms from a shared scheduler, perform them, and hand the results in.
//!
//! [`Worker::run`] is one worker's whole life, on one thread, with one pass of the hall. Its end counts what
//! it did, and each count is exact: contracts tie it to what the pass has seen, added, queued and taken
//! (`specs/Worked`). A [`Gate`] is called round each execution, and says nothing of what is computed.
#![tactic(auto)]

mod booking;
mod ends;
mod gate;
mod giving;
pub mod laws;
mod limits;
mod resting;
mod tally;
mod worker;

pub use ends::{WorkerCause, WorkerEnd};
pub use gate::{Gate, NoGate};
pub use limits::MOST_COUNTED;
pub use worker::Worker;
