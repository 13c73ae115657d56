//! The input of a run, record by record.
ghost use Rattle.std.specs.Prelude.{◌≡◌, IfOk, List};
ghost use Rattle.std.specs.Arc.{arc_value};
ghost use Rattle.hive_model.specs.EventRecord.{EventRecord as Record};
ghost use Rattle.hive_model.specs.Job.{Job as ShownJob};
ghost use Rattle.hive_pump.specs.Input.{InputSays, IsInput, IsUnread};

use crate::ending::Ending;
use crate::run::read_on;
use event_records::{Next, Records};
use hive_edge::Source;
use hive_model::{EventRecord, Job};
use std::alloc::{AllocError, Global};
use std::sync::Arc;

// How many bytes one read asks for.
const PIECE: usize = 65_536;

/// What came of the input.
#[derive(Drop)]
pub(crate) enum Came {
    /// The next record.
    Event(EventRecord),
    /// A piece of it, or its end. The next record may be asked for again.
    Piece,
    /// Nothing further: reading stops so.
    Ended(Ending),
}

/// The reader of records, and what one read asks for.
#[derive(Drop)]
pub(crate) struct Input {
    reader: Records,
    // How many bytes were read.
    taken: usize,
    buffer: Vec<u8>,
}

impl Input {
    pub(crate) fn new(alloc: Global, job: &Arc<Job>) -> Result<Input, AllocError>
        ensures { IfOk result (IsUnread (arc_value job.now)) }
    {
        let reader = Records::new(alloc, Arc::try_clone(job)?)?;
        let buffer = vec![in alloc; 0u8; PIECE]?;
        Ok(Input {
            reader,
            taken: 0,
            buffer,
        })
    }

    /// Gives the next record where the reader has it, or reads a piece.
    pub(crate) fn next<S: Source>(&mut self, alloc: Global, source: &mut S) -> Came
        requires reads { (job : ShownJob) × (given : List Record) × (first : S)
            × IsInput S.rest S.faults job first source.old given self.old }
        ensures says { (job : ShownJob) (given : List Record) (first : S)
            → IsInput S.rest S.faults job first source.old given self.old
            → InputSays S.rest S.faults job first source.new given self.old self.new result }
    {
        match self.reader.next(alloc) {
            Next::Event(event) => Came::Event(event),
            Next::More => {
                let buffer = self.buffer.as_mut_slice();
                match read_on(source, buffer, &mut self.reader, &mut self.taken) {
                    Ok(()) => Came::Piece,
                    Err(ended) => Came::Ended(ended),
                }
            }
            Next::Refused(refusal) => Came::Ended(Ending::Refused(refusal)),
            Next::Finished => Came::Ended(Ending::All),
            Next::NoMemory => Came::Ended(Ending::NoMemory),
        }
    }
}
