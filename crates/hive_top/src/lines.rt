//! What is written without a run.
ghost use Rattle.std.specs.Prelude.{◌≡◌, ◌⊎◌, ◌^◌, ◌<◌};
ghost use Rattle.hive_model.specs.Handles.{handle_count};
ghost use Rattle.text_model.specs.Stops.{stop_options};
ghost use Rattle.hive_top.specs.Answer.{checked, stopped};
ghost use Rattle.hive_top.specs.Called.{Wrote};
ghost use Rattle.hive_top.specs.JobLine.{job_line};
ghost use Rattle.hive_top.specs.Status.{IsOneOf, IsWhole};
ghost use Rattle.hive_top.specs.Stopped.{status_at, text_at};
ghost use Rattle.hive_top.specs.Tasks.{CanTell, told};

use crate::generate::generate;
use crate::job_line::push_job_line;
use crate::run::flush;
use crate::status::Status;
use crate::stop::Stop;
use crate::task::Notice;
use hive_edge::{Sink, send};
use hive_model::Job;
use report_text::push_stop_options;
use std::alloc::Global;
use text_model::JobRefusal;

/// Writes what a notice says, and gives the status that goes with it, or that of a failure of the sink.
pub fn tell<K: Sink>(alloc: Global, notice: Notice, sink: &mut K) -> Status
    requires can { CanTell notice }
    requires room { K.admits sink.old (told notice).text }
    ensures wrote { Wrote result (K.got sink.old) (K.got sink.new)
        (K.faults sink.old) (K.faults sink.new) (told notice) }
    ensures status { IsOneOf result (told notice).status }
    ensures memory { notice ≡ Notice.Stop Stop.NoMemory → (result ≡ Status.NoMemory) × (sink.new ≡ sink.old) }
    ensures words { notice ≡ Notice.Stop Stop.Words → (result ≡ Status.Words) ⊎ (result ≡ Status.Output) }
{
    match notice {
        Notice::Job(job) => put_job(alloc, sink, &job),
        Notice::Generated(text) => generate(alloc, text, sink),
        Notice::Stop(stop) => put(alloc, sink, &stop),
    }
}

// Writes the line of what stopped the call.
fn put<K: Sink>(alloc: Global, sink: &mut K, stop: &Stop) -> Status
    requires { K.admits sink.old (text_at stop.now) }
    ensures wrote { Wrote result (K.got sink.old) (K.got sink.new)
        (K.faults sink.old) (K.faults sink.new) (stopped stop.now) }
    ensures status { IsOneOf result (status_at stop.now) }
    ensures memory { stop.now ≡ Stop.NoMemory → (result ≡ Status.NoMemory) × (sink.new ≡ sink.old) }
    ensures words { stop.now ≡ Stop.Words → (result ≡ Status.Words) ⊎ (result ≡ Status.Output) }
{
    match stop {
        Stop::Words => put_line(sink, b"stop words\n", Status::Words),
        Stop::Shelf => put_line(sink, b"stop shelf\n", Status::Input),
        Stop::TooLong => put_line(sink, b"stop options TooLong\n", Status::Options),
        Stop::Options(refusal) => put_refusal(alloc, sink, refusal),
        Stop::NoMemory => Status::NoMemory,
    }
}

fn put_refusal<K: Sink>(alloc: Global, sink: &mut K, refusal: &JobRefusal) -> Status
    requires { K.admits sink.old (stop_options refusal.now) }
    ensures wrote { Wrote result (K.got sink.old) (K.got sink.new) (K.faults sink.old) (K.faults sink.new)
        (stopped (Stop.Options refusal.now)) }
    ensures status { IsOneOf result Status.Options }
{
    let mut line = Vec::new(alloc);
    match push_stop_options(&mut line, refusal) {
        Ok(()) => put_line(sink, line.as_slice(), Status::Options),
        Err(_) => Status::NoMemory,
    }
}

// Writes what `check` says of a job.
fn put_job<K: Sink>(alloc: Global, sink: &mut K, job: &Job) -> Status
    requires few { handle_count job.now < 2 ^ 16 }
    requires room { K.admits sink.old (job_line job.now) }
    ensures wrote { Wrote result (K.got sink.old) (K.got sink.new)
        (K.faults sink.old) (K.faults sink.new) (checked job.now) }
    ensures status { IsOneOf result Status.AllOk }
{
    let mut line = Vec::new(alloc);
    match push_job_line(&mut line, job) {
        Ok(()) => put_line(sink, line.as_slice(), Status::AllOk),
        Err(_) => Status::NoMemory,
    }
}

/// Writes a line or a longer text, and gives the status that goes with it, or that of a failure of the sink.
pub fn put_line<K: Sink>(sink: &mut K, line: &[u8], status: Status) -> Status
    requires whole { IsWhole status }
    requires room { K.admits sink.old line.now }
    ensures wrote { Wrote result (K.got sink.old) (K.got sink.new) (K.faults sink.old) (K.faults sink.new)
        (record { text = line.now; status = status }) }
    ensures kept { (result ≡ status) ⊎ (result ≡ Status.Output) }
{
    match send(sink, line) {
        Ok(()) => flush(sink, status),
        Err(_) => Status::Output,
    }
}
