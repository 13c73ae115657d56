//! Who produces which data handle and who takes it, from names: the graph of a job's algorithms, and the first thing
//! that is wrong with it.
//!
//! [`build`] answers what `text_model` calls the graph of some raw handles and algorithms (`graph_of`): a [`Graph`], or
//! the refusal that comes first in the order of `GraphRefusal`. Contracts see a `Graph` as the names of all handles, the
//! producer of each and its consumers. Where there is a graph, no algorithm waits for itself.
#![tactic(auto)]

mod building;
mod consumers;
mod cycle;
mod graph;
mod handles;
mod inputs;
mod need;
mod producers;

pub use building::build;
pub use graph::Graph;
pub use need::Need;
