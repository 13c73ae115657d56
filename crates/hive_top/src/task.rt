//! What there is to do, once the words, the files and the options are read.
ghost use Rattle.std.specs.Prelude.{◌≡◌, ◌≤◌, Err, IfOk, IfSome, List, Ok, Option, Some, false, ℕ};
ghost use Rattle.event_laws.specs.Uncut.{HasNoCut};
ghost use Rattle.hive_edge.specs.Shelf.{Files};
ghost use Rattle.hive_gen.specs.OptionsText.{options_text};
ghost use Rattle.hive_model.specs.Same.{texts};
ghost use Rattle.hive_model.specs.Valid.{IsValidJob};
ghost use Rattle.text_model.specs.declared.limits.TheConstants.{MOST_EVENTS};
ghost use Rattle.hive_top.specs.Answer.{file_job, named_job};
ghost use Rattle.hive_top.specs.Called.{IsOfText, ReadsJob};
ghost use Rattle.hive_top.specs.Tasks.{HasFile, IsGenerated, IsTask, plan_of as plan_for};
ghost use Rattle.hive_top.specs.Words.{IsPossible, IsPossibleFor, IsWithin, calls_files, command_of, file_of as second_word};

use crate::commands::{Command, Concurrency, Generated, How, Input, Verb};
use crate::job::{job_named, job_of_text};
use crate::stop::Stop;
use crate::words::file_of;
use hive_edge::{CleanSource, MemSink, Shelf};
use hive_gen::{options, records};
use hive_model::Job;
use hive_pump::Plan;
use std::alloc::{AllocError, Global};
use std::sync::Arc;

/// What there is to do.
#[derive(Drop)]
pub enum Task {
    /// A job is run on the records of the source.
    Run(Arc<Job>, Plan),
    /// Generated records are run through the generated job.
    RunGenerated(GeneratedRun),
    /// A text is written.
    Write(Notice),
}

/// A text that is written without a run.
#[derive(Drop)]
pub enum Notice {
    /// What `check` says of a job.
    Job(Job),
    /// A text of the generator.
    Generated(Generated),
    /// What keeps the call from its work.
    Stop(Stop),
}

/// A run in memory.
#[derive(Drop)]
pub struct GeneratedRun {
    pub job: Arc<Job>,
    pub plan: Plan,
    pub records: CleanSource,
    /// Room for the last line.
    pub line: MemSink,
}

// How many bytes of the generated records are read at once.
const PIECE: usize = 65_536;

// Room for the last line of a run: a few words and at most four numbers of twenty digits.
const LINE: usize = 256;

/// What the words ask for, where FILE and its options are as the shelf has them.
pub fn task_of<F: Shelf>(
    alloc: Global,
    asked: Option<Command>,
    words: &[&str],
    shelf: &mut F,
) -> Task
    requires asked { asked ≡ command_of (texts words.now) }
    requires within { IfSome asked IsWithin }
    requires files { HasFile (texts words.now) (F.has shelf.old) }
    ensures is { IsTask asked (second_word (texts words.now)) (F.files shelf.old)
        (F.faults shelf.old) (F.faults shelf.new) result }
    ensures untouched { calls_files asked ≡ false → shelf.new ≡ shelf.old }
{
    match asked {
        None => stopped(Stop::Words),
        Some(Command::OnFile(verb)) => on_file(alloc, verb, words, shelf),
        Some(Command::Generate(text)) => Task::Write(Notice::Generated(text)),
        Some(Command::Bulk(input, concurrency)) => generated(alloc, input, concurrency),
    }
}

fn stopped(stop: Stop) -> Task
    ensures { result ≡ Task.Write (Notice.Stop stop) }
{
    Task::Write(Notice::Stop(stop))
}

// What is to be done with the options in FILE.
fn on_file<F: Shelf>(alloc: Global, verb: Verb, words: &[&str], shelf: &mut F) -> Task
    requires possible { IsPossibleFor verb }
    requires files { F.has shelf.old (second_word (texts words.now)) }
    ensures { IsTask (Some (Command.OnFile verb)) (second_word (texts words.now)) (F.files shelf.old)
        (F.faults shelf.old) (F.faults shelf.new) result }
{
    match job_named(alloc, file_of(words), shelf) {
        Ok(job) => with_job(alloc, verb, job),
        Err(stop) => stopped(stop),
    }
}

// What is to be done with a job that was read.
fn with_job(alloc: Global, verb: Verb, job: Job) -> Task
    requires possible { IsPossibleFor verb }
    requires valid { IsValidJob job }
    requires uncut { HasNoCut job }
    ensures { (name : List ℕ) (files : Option Files) (before now : ℕ) → ReadsJob (named_job name files) (Ok job)
        → now ≡ before → IsTask (Some (Command.OnFile verb)) name files before now result }
{
    match verb {
        Verb::Run(how) => run_of(alloc, job, how),
        Verb::Check => Task::Write(Notice::Job(job)),
    }
}

fn run_of(alloc: Global, job: Job, how: How) -> Task
    requires possible { IsPossible how.concurrency }
    requires valid { IsValidJob job }
    requires uncut { HasNoCut job }
    ensures { (name : List ℕ) (files : Option Files) (before now : ℕ) → ReadsJob (named_job name files) (Ok job)
        → now ≡ before → IsTask (Some (Command.OnFile (Verb.Run how))) name files before now result }
{
    match Arc::new(alloc, job) {
        Ok(job) => Task::Run(job, plan_of(how.concurrency, how.brief)),
        Err(_) => stopped(Stop::NoMemory),
    }
}

fn plan_of(concurrency: Concurrency, brief: bool) -> Plan
    ensures { result ≡ plan_for concurrency brief }
{
    Plan {
        slots: concurrency.slots,
        workers: concurrency.workers,
        brief,
    }
}

// The run of generated records, or what stops it.
fn generated(alloc: Global, input: Input, concurrency: Concurrency) -> Task
    requires few { input.events ≤ MOST_EVENTS }
    requires possible { IsPossible concurrency }
    ensures { (name : List ℕ) (files : Option Files) (count : ℕ)
        → IsTask (Some (Command.Bulk input concurrency)) name files count count result }
{
    match generated_job(alloc) {
        Ok(job) => match generated_run(alloc, job, input, concurrency) {
            Ok(run) => Task::RunGenerated(run),
            Err(_) => stopped(Stop::NoMemory),
        },
        Err(stop) => stopped(stop),
    }
}

// The job of the generated options.
fn generated_job(alloc: Global) -> Result<Job, Stop>
    ensures job { ReadsJob (Some (file_job options_text)) result }
    ensures valid { IfOk result IsValidJob }
    ensures uncut { IfOk result HasNoCut }
    ensures of_text { IsOfText result }
{
    match options(alloc) {
        Ok(text) => job_of_text(alloc, text.as_slice()),
        Err(_) => Err(Stop::NoMemory),
    }
}

fn generated_run(
    alloc: Global,
    job: Job,
    input: Input,
    concurrency: Concurrency,
) -> Result<GeneratedRun, AllocError>
    requires { input.events ≤ MOST_EVENTS }
    ensures { IfOk result (λ it. IsGenerated input concurrency job it) }
{
    let records = CleanSource::new(records(alloc, input.start, input.events)?, PIECE);
    let line = MemSink::new(alloc, LINE, LINE, Vec::new(alloc))?;
    Ok(GeneratedRun {
        job: Arc::new(alloc, job)?,
        plan: plan_of(concurrency, true),
        records,
        line,
    })
}
