//! The status with which a call of the program ends.
ghost use Rattle.std.specs.Prelude.{◌≡◌};
ghost use Rattle.hive_top.specs.Status.{code_of};

/// How a call of the program ended (docs/FORMATS.md, "Exit statuses").
#[derive(Clone, Copy, Debug, PartialEq, Eq)]
pub enum Status {
    /// The input was read to its end, and every event is ok.
    AllOk,
    /// The input was read to its end, and an event is failed or stalled.
    SomeNot,
    /// The words are in no written form.
    Words,
    /// Memory ran out.
    NoMemory,
    /// The options are refused.
    Options,
    /// A record is refused.
    Record,
    /// The files or the source failed.
    Input,
    /// The sink failed.
    Output,
}

impl Status {
    /// The exit status of the process: 0 to 7 in the order above.
    pub fn code(&self) -> u8
        ensures { result ≡ code_of self.now }
    {
        match self {
            Status::AllOk => 0,
            Status::SomeNot => 1,
            Status::Words => 2,
            Status::NoMemory => 3,
            Status::Options => 4,
            Status::Record => 5,
            Status::Input => 6,
            Status::Output => 7,
        }
    }
}
