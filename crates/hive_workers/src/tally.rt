//! The counts of a run, as it goes.
ghost use Rattle.std.specs.Prelude.{◌≡◌};
ghost use Rattle.hive_workers.specs.Working.{
  HasRoom,
  ended,
  no_tally,
  one_astray,
  one_given,
  one_handed_back,
  one_put_back,
};

use crate::ends::{WorkerCause, WorkerEnd};

/// The counts of a run that hasn't ended.
#[derive(Clone, Copy)]
pub(crate) struct Tally {
    pub(crate) performed: u64,
    pub(crate) given: u64,
    pub(crate) put_back: u64,
    pub(crate) handed_back: u64,
    pub(crate) strays: u64,
}

impl Tally {
    pub(crate) fn new() -> Tally
        ensures { result ≡ no_tally }
    {
        Tally {
            performed: 0,
            given: 0,
            put_back: 0,
            handed_back: 0,
            strays: 0,
        }
    }

    // An execution's result was queued or booked.
    pub(crate) fn give(&mut self)
        requires { HasRoom self.old }
        ensures { self.new ≡ one_given self.old }
    {
        self.performed += 1;
        self.given += 1;
    }

    // Memory ran out in an execution, and its claim was put back.
    pub(crate) fn put_back(&mut self)
        requires { HasRoom self.old }
        ensures { self.new ≡ one_put_back self.old }
    {
        self.performed += 1;
        self.put_back += 1;
    }

    // The claim of an execution wasn't outstanding.
    pub(crate) fn hand_back(&mut self)
        requires { HasRoom self.old }
        ensures { self.new ≡ one_handed_back self.old }
    {
        self.performed += 1;
        self.handed_back += 1;
    }

    // A result was taken whose claim wasn't outstanding.
    pub(crate) fn stray(&mut self)
        ensures { self.new ≡ one_astray self.old }
    {
        self.strays = self.strays.saturating_add(1);
    }

    pub(crate) fn end(self, cause: WorkerCause) -> WorkerEnd
        ensures { result ≡ ended self cause }
    {
        WorkerEnd {
            performed: self.performed,
            given: self.given,
            put_back: self.put_back,
            handed_back: self.handed_back,
            strays: self.strays,
            cause,
        }
    }
}
