//! Why an options text describes no job.
ghost use Rattle.std.specs.Prelude.{◌≡◌};
ghost use Rattle.text_model.specs.declared.job_refusal.JobRefusal.TheVariants.{NoMemory, Cut};
ghost use Rattle.text_model.specs.Refusals.{of_options, of_graph, of_tree};

use crate::{CutRefusal, ExprRefusal, GraphRefusal, OptionsRefusal, TreeRefusal};
use hive_model::Text;
use std::alloc::{AllocError, AllocFailed};
use thiserror::Error;

/// The first thing that is wrong with an options text, phase after phase (docs/FORMATS.md,
/// "Refusals of options"). Paths are those of [`OptionsRefusal`]. Where memory ran out in a part, it ran
/// out here.
#[derive(Debug, PartialEq, Eq, Drop, Error)]
pub enum JobRefusal {
    /// The shape of the tables, or over 1,024 handles in all: Range with the path `handle`.
    #[error("{0}")]
    Options(OptionsRefusal),
    /// A name that stands before already.
    #[error("{} repeats a name", .path.as_str())]
    Repeat { path: Text },
    /// A name of no resource.
    #[error("{} names no resource", .path.as_str())]
    UnknownResource { path: Text },
    /// Producers and takers of handles.
    #[error("{0}")]
    Graph(GraphRefusal),
    /// The text of an output's value or of a filter is no expression.
    #[error("{}: {cause}", .path.as_str())]
    Expr { path: Text, cause: ExprRefusal },
    /// Sequences and members.
    #[error("{0}")]
    Tree(TreeRefusal),
    /// Sequences with `cut`.
    #[error("{0}")]
    Cut(CutRefusal),
    /// Memory ran out.
    #[error("memory ran out")]
    NoMemory,
}

impl From<AllocError> for JobRefusal {
    ghost from_gives = { λ _ e. e ≡ NoMemory };

    fn from(_error: AllocError) -> Self {
        JobRefusal::NoMemory
    }
}

impl<T: Drop> From<AllocFailed<T>> for JobRefusal {
    ghost from_gives = { λ _ e. e ≡ NoMemory };

    fn from(_error: AllocFailed<T>) -> Self {
        JobRefusal::NoMemory
    }
}

impl From<OptionsRefusal> for JobRefusal {
    ghost from_gives = { λ refusal e. e ≡ of_options refusal };

    fn from(refusal: OptionsRefusal) -> Self {
        match refusal {
            OptionsRefusal::NoMemory => JobRefusal::NoMemory,
            other => JobRefusal::Options(other),
        }
    }
}

impl From<GraphRefusal> for JobRefusal {
    ghost from_gives = { λ refusal e. e ≡ of_graph refusal };

    fn from(refusal: GraphRefusal) -> Self {
        match refusal {
            GraphRefusal::NoMemory => JobRefusal::NoMemory,
            other => JobRefusal::Graph(other),
        }
    }
}

impl From<TreeRefusal> for JobRefusal {
    ghost from_gives = { λ refusal e. e ≡ of_tree refusal };

    fn from(refusal: TreeRefusal) -> Self {
        match refusal {
            TreeRefusal::NoMemory => JobRefusal::NoMemory,
            other => JobRefusal::Tree(other),
        }
    }
}

impl From<CutRefusal> for JobRefusal {
    ghost from_gives = { λ refusal e. e ≡ Cut refusal };

    fn from(refusal: CutRefusal) -> Self {
        JobRefusal::Cut(refusal)
    }
}
