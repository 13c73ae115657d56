//! An algorithm instance on loan.
ghost use Rattle.std.specs.Prelude.{◌≡◌, ◌<◌, [], OnOk, OnErr, IsSomeAnd, length, slice_get};
ghost use Rattle.hive_model.specs.Enabled.{inputs_in};
ghost use Rattle.hive_model.specs.Scratch.{Keeps};

use crate::{Job, Scratch, Store};
use std::alloc::AllocError;

/// The working room of an algorithm, lent for one execution (docs/PROCESSING.md, "Execution").
#[derive(Debug, Drop)]
pub struct Lent {
    /// The algorithm's number, from 0.
    pub algorithm: u16,
    /// The number of the instance, from 0, or nothing for a re-entrant algorithm.
    pub clone: Option<u8>,
    pub scratch: Scratch,
}

impl Lent {
    /// Shares what the store holds for the algorithm's inputs, in written order, into the scratch. The only
    /// error is running out of memory: the scratch then holds no inputs.
    pub fn load(&mut self, job: &Job, store: &Store) -> Result<(), AllocError>
        requires { self.old.algorithm < length job.now.algorithms }
        ensures ok { OnOk result (IsSomeAnd (slice_get job.now.algorithms self.old.algorithm)
            (λ a. self.new.scratch.inputs ≡ inputs_in store.now a.inputs)) }
        ensures err { OnErr result (self.new.scratch.inputs ≡ []) }
        ensures room { Keeps self.old.scratch self.new.scratch }
        ensures algorithm { self.new.algorithm ≡ self.old.algorithm }
        ensures clone { self.new.clone ≡ self.old.clone }
    {
        let algorithm = &job.algorithms()[usize::from(self.algorithm)];
        self.scratch.load(algorithm.inputs(), store)
    }
}
