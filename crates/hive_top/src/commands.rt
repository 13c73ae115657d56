//! What a command line asks for (docs/FORMATS.md, "Words").

/// How many workers perform algorithms, where the words don't say.
pub const DEFAULT_WORKERS: u8 = 4;

/// How many events are in flight at once, where the words don't say.
pub const DEFAULT_SLOTS: u8 = 4;

/// How much of a run is done at once.
#[derive(Clone, Copy, Debug, PartialEq, Eq)]
pub struct Concurrency {
    /// How many workers perform algorithms beside the thread that reads and writes, from 0 to
    /// [`hall_loop::MOST_WORKERS`].
    pub workers: u8,
    /// How many events are in flight at once, from 1 to [`hive_model::MOST_SLOTS`].
    pub slots: u8,
}

/// How a job is run.
#[derive(Clone, Copy, Debug, PartialEq, Eq)]
pub struct How {
    /// How much of it is done at once.
    pub concurrency: Concurrency,
    /// Whether the journal is written to the trace.
    pub timeline: bool,
    /// Whether the last line alone is written.
    pub brief: bool,
}

/// What a command does with its FILE.
#[derive(Clone, Copy, Debug, PartialEq, Eq)]
pub enum Verb {
    /// Runs the job on the records of the source.
    Run(How),
    /// Says what the options hold.
    Check,
}

/// Generated events: so many, from this start.
#[derive(Clone, Copy, Debug, PartialEq, Eq)]
pub struct Input {
    /// What the events are drawn from.
    pub start: u64,
    /// How many they are, at most [`text_model::MOST_EVENTS`].
    pub events: u32,
}

/// A text of the generator.
#[derive(Clone, Copy, Debug, PartialEq, Eq)]
pub enum Generated {
    /// The options of its job.
    Options,
    /// The records of its events.
    Records(Input),
}

/// What a command line asks for.
#[derive(Clone, Copy, Debug, PartialEq, Eq)]
pub enum Command {
    /// Something is done with the options in FILE, which is the second word.
    OnFile(Verb),
    /// A generated text is written.
    Generate(Generated),
    /// Generated records are run through the generated job, and the last line is written.
    Bulk(Input, Concurrency),
}
