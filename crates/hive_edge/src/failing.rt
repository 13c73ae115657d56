//! Calls that fail because they were told to.
ghost use Rattle.std.specs.Prelude.{◌≡◌, [], OnOk, OnErr, is_err};
ghost use Rattle.hive_edge.specs.Fault.{HasCause, Rose};
ghost use Rattle.hive_edge.specs.Failing.{Failing as Shown, after_one, fails_next, counted, failed};

use crate::Failed;
use std::marker::Model;

/// Numbers the calls of a source, a sink or a shelf from 1, and lets those fail that were named.
#[derive(Debug, Drop)]
pub struct Failing {
    calls: u64,
    numbers: Vec<u64>,
    faults: u64,
}

impl Model for Failing {
    ghost use Rattle.hive_edge.specs.Failing.{Failing as Shown};

    ghost Value = { Shown };

    ghost view = { λ it. record { calls = it.calls; numbers = it.numbers.items; faults = it.faults } };
}

impl Failing {
    /// No call was made yet; those with these numbers will fail.
    pub fn new(numbers: Vec<u64>) -> Failing
        ensures { result ≡ record { calls = 0; numbers = numbers.items; faults = 0 } }
    {
        Failing {
            calls: 0,
            numbers,
            faults: 0,
        }
    }

    /// One more call.
    pub fn call(&mut self) -> Result<(), Failed>
        ensures fails { is_err result ≡ fails_next self.old }
        ensures ok { OnOk result (self.new ≡ counted self.old) }
        ensures err { OnErr result (self.new ≡ failed self.old) }
        ensures cause { HasCause self.old.faults self.new.faults result }
    {
        let number = self.calls.saturating_add(1);
        self.calls = number;
        if self.numbers.as_slice().contains(&number) {
            return Err(self.fail());
        }
        Ok(())
    }

    /// Raises the count of faults for a call that was counted.
    pub fn fail(&mut self) -> Failed
        ensures faults { self.new ≡ record self.old { faults = after_one self.old.faults } }
        ensures cause { Rose self.old.faults self.new.faults }
    {
        self.faults = self.faults.saturating_add(1);
        Failed
    }
}
