//! The job of a file of options.
ghost use Rattle.std.specs.Prelude.{◌≡◌, ◌≤◌, Err, IfOk, Some, length};
ghost use Rattle.event_laws.specs.Uncut.{HasNoCut};
ghost use Rattle.hive_model.specs.Valid.{IsValidJob};
ghost use Rattle.text_model.specs.declared.limits.TheConstants.{MOST_OPTIONS_BYTES};
ghost use Rattle.hive_top.specs.Answer.{file_job, named_job};
ghost use Rattle.hive_top.specs.Called.{CountsShelf, IsOfText, ReadsJob};
ghost use Rattle.hive_top.specs.declared.stop.Stop.TheVariants as stop;

use crate::stop::{Stop, stop_of};
use hive_edge::{Shelf, ShelfFault};
use hive_model::Job;
use job_build::build;
use std::alloc::Global;
use text_model::MOST_OPTIONS_BYTES;

/// The job of the file of that name, or what stopped the call: the files, the options, or memory that ran out.
pub fn job_named<F: Shelf>(alloc: Global, name: &str, shelf: &mut F) -> Result<Job, Stop>
    requires { F.has shelf.old name.now }
    ensures job { ReadsJob (named_job name.now (F.files shelf.old)) result }
    ensures count { CountsShelf result (F.faults shelf.old) (F.faults shelf.new) }
    ensures valid { IfOk result IsValidJob }
    ensures uncut { IfOk result HasNoCut }
    ensures no_words { result ≡ Err stop.Words → ⊥ }
{
    let mut options = Vec::new(alloc);
    match shelf.fetch(name, MOST_OPTIONS_BYTES, &mut options) {
        Ok(()) => job_of_text(alloc, options.as_slice()),
        Err(ShelfFault::Failed) => Err(Stop::Shelf),
        Err(ShelfFault::Over) => Err(Stop::TooLong),
        Err(ShelfFault::NoMemory) => Err(Stop::NoMemory),
    }
}

/// The job of an options text, which isn't over its limit.
pub fn job_of_text(alloc: Global, text: &[u8]) -> Result<Job, Stop>
    requires { length text.now ≤ MOST_OPTIONS_BYTES }
    ensures job { ReadsJob (Some (file_job text.now)) result }
    ensures valid { IfOk result IsValidJob }
    ensures uncut { IfOk result HasNoCut }
    ensures of_text { IsOfText result }
{
    match build(alloc, text) {
        Ok(job) => Ok(job),
        Err(refusal) => Err(stop_of(refusal)),
    }
}
