//! What the builders of graphs share: names with their numbers, and where numbers lead on from one to the next.
//!
//! [`Names`] numbers distinct names in the order in which they come. A list of lists of numbers says where each
//! number leads; contracts see it as the function `links`. [`first_deeper`] and [`first_on_cycle`] answer what
//! `text_model` asks of such a function: the first number that stands too high above others, and the first that
//! leads back to itself.
#![tactic(auto)]

mod cycle;
mod depth;
mod flags;
mod names;
mod order;

pub use cycle::first_on_cycle;
pub use depth::first_deeper;
pub use flags::filled;
pub use names::Names;
