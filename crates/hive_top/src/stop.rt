//! What keeps a call from running a job.
ghost use Rattle.std.specs.Prelude.{◌≡◌};
ghost use Rattle.hive_top.specs.Stopped.{stop_at};

use text_model::JobRefusal;

/// What keeps a call from doing its work. Each has a text and a status (docs/FORMATS.md, "Stop lines").
#[derive(Debug, PartialEq, Eq, Drop)]
pub enum Stop {
    /// The words are in no written form.
    Words,
    /// The files failed.
    Shelf,
    /// The options text is over its limit.
    TooLong,
    /// The options text is refused.
    Options(JobRefusal),
    /// Memory ran out, which is told by the status alone.
    NoMemory,
}

/// What stops a call where no job could be built.
pub fn stop_of(refusal: JobRefusal) -> Stop
    ensures { result ≡ stop_at refusal }
{
    match refusal {
        JobRefusal::Options(refusal) => Stop::Options(JobRefusal::Options(refusal)),
        JobRefusal::Repeat { path } => Stop::Options(JobRefusal::Repeat { path }),
        JobRefusal::UnknownResource { path } => {
            Stop::Options(JobRefusal::UnknownResource { path })
        }
        JobRefusal::Graph(refusal) => Stop::Options(JobRefusal::Graph(refusal)),
        JobRefusal::Expr { path, cause } => Stop::Options(JobRefusal::Expr { path, cause }),
        JobRefusal::Tree(refusal) => Stop::Options(JobRefusal::Tree(refusal)),
        JobRefusal::Cut(refusal) => Stop::Options(JobRefusal::Cut(refusal)),
        JobRefusal::NoMemory => Stop::NoMemory,
    }
}
