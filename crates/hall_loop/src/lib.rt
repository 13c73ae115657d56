//! The loop of the thread that admits events and hands their results out, while workers perform.
//!
//! A [`HallLoop`] stands beside the workers of a hall: it admits, ends events, hands results out in the order of the
//! records, and performs where it has nothing better to do. What a contract can say of it while the workers run is
//! said of the records that it admitted itself (`specs/Beside`). When the workers have returned, [`settle`] closes the
//! hall, and gives the loop of `event_loop` that finishes what is left on one thread.
#![tactic(auto)]

mod admitting;
mod booking;
mod ending;
mod hall_loop;
mod handing;
mod limits;
mod opening;
mod performing;
mod room;
mod settling;
mod step;
mod working;

pub use hall_loop::HallLoop;
pub use limits::MOST_WORKERS;
pub use opening::{Opened, open};
pub use settling::{Unsettled, settle};
pub use step::{Fault, Step};
pub use working::{work, work_all};
