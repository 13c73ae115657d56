//! The program: `main` makes the real files and streams, and calls the top.
#![tactic(auto)]

use hive_real::{RealFiles, RealIn, RealOut};
use hive_top::{Status, hive, hive_plain};
use hive_workers::NoGate;
use std::alloc::AllocError;
use std::io::Write;
use std::process::ExitCode;
use std::rt::Runtime;
use std::sync::Wait;
use std::thread::Threads;
use std::{env, io};

fn main(rt: HostRuntime) -> ExitCode {
    let words = match words_of(&rt) {
        Ok(words) => words,
        Err(_) => return ExitCode::from(Status::NoMemory.code()),
    };
    let mut trace = RealOut::new(rt.stderr());
    match run(&rt, words.as_slice(), &mut trace) {
        Ok(status) => ExitCode::from(status.code()),
        Err(_) => ExitCode::from(Status::NoMemory.code()),
    }
}

// The words behind the program's name. Words that aren't text are in no written form, so they stand
// for none at all.
fn words_of(rt: &HostRuntime) -> Result<Vec<String>, AllocError> {
    let mut words = Vec::new(rt.alloc());
    match env::args(rt) {
        Ok(args) => {
            for (place, word) in args.enumerate() {
                if place > 0 {
                    words.push(word)?;
                }
            }
            Ok(words)
        }
        Err(fault) if fault.kind() == io::ErrorKind::OutOfMemory => Err(AllocError),
        Err(_) => Ok(words),
    }
}

fn run<R: Runtime + AllocGlobal + Threads + Wait + Sync, W: Write + Drop>(
    rt: &R,
    words: &[String],
    trace: &mut RealOut<W>,
) -> Result<Status, AllocError> {
    let mut texts = Vec::with_capacity(rt.alloc(), words.len())?;
    for word in words {
        texts.push(word.as_str())?;
    }
    let mut files = RealFiles::new(rt);
    let mut input = RealIn::new(rt.reader());
    let mut output = RealOut::new(io::writer(rt));
    let words = texts.as_slice();
    let ran = if may_have_workers(words) {
        hive(
            rt,
            rt.alloc(),
            words,
            &mut files,
            &mut input,
            &mut output,
            trace,
            &NoGate,
        )
    } else {
        hive_plain(
            rt.alloc(),
            words,
            &mut files,
            &mut input,
            &mut output,
            trace,
        )
    };
    Ok(ran.status)
}

// Whether the words can ask for workers. All others are carried out without a thread.
fn may_have_workers(words: &[&str]) -> bool {
    match words.split_first() {
        Some((word, _)) => *word == "run" || *word == "bulk",
        None => false,
    }
}
