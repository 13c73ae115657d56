//! The execution of one claim: an algorithm's expressions, run over its inputs.
//!
//! A [`Claimed`] is work that is handed out: an algorithm with an instance on loan that holds its
//! inputs. [`perform`] turns it into a [`Done`], which keeps in its type that its outcome and
//! outputs are those of its algorithm over its inputs (docs/PROCESSING.md, "Execution"). Both cross
//! threads.
//!
//! Expressions run node by node on the stack of the scratch, without a walk over the tree. The
//! stack has room for every node, so memory is taken by lists and by the outputs alone.
#![tactic(auto)]

mod claimed;
mod done;
mod evaluation;
mod executing;
mod frame;
pub mod laws;
mod node;
mod performing;
mod steps;

pub use claimed::Claimed;
pub use done::Done;
pub use performing::perform;
pub use steps::Steps;
