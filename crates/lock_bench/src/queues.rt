//! Threads that send results through one queue. Each puts one and takes one, so the queue is never full.
ghost use Rattle.std.specs.Prelude.{◌≡◌, ◌<◌, All, IfOk, IfSome, IsSomeAnd, slice_get};
ghost use Rattle.action_queue.specs.Passes.{IsPassOf, job_of};
ghost use Rattle.expr_code.specs.Claim.{IsOfJob};
ghost use Rattle.hive_model.specs.Runnable.{CanPerform};
ghost use Rattle.lock_bench.specs.Senders.{MaySend};

use crate::results::{job, result_of};
use action_queue::{Actions, MOST_WAITING, QueuePass};
use crossbeam_queue::ArrayQueue;
use expr_code::Done;
use hive_model::{Job, Many};
use std::alloc::{AllocError, Global};
use std::rt::Clock;
use std::sync::{Arc, Wait};
use std::thread::Threads;
use std::time::{Duration, Instant};
use std::{io, thread};

#[derive(Drop)]
pub(crate) struct Sender {
    pub(crate) pass: QueuePass,
    pub(crate) token: Option<Done>,
}

fn put<R: Wait>(rt: &R, queue: &Actions, pass: &mut QueuePass, value: Done)
    requires pass { IsPassOf queue.now pass.old }
    requires of_job { IsOfJob (job_of queue.now) value.claim }
    ensures { IsPassOf queue.now pass.new }
{
    let mut value = value;
    for _ in rt.forever() {
        match queue.put(rt, pass, value) {
            Ok(()) => return,
            Err(back) => value = back,
        }
        thread::yield_now();
    }
    unreachable!()
}

fn take<R: Wait>(rt: &R, queue: &Actions, pass: &mut QueuePass) -> Done
    requires { IsPassOf queue.now pass.old }
    ensures pass { IsPassOf queue.now pass.new }
    ensures of_job { IsOfJob (job_of queue.now) result.claim }
{
    for _ in rt.forever() {
        if let Some(done) = queue.take(rt, pass) {
            return done;
        }
        thread::yield_now();
    }
    unreachable!()
}

// Puts the sender's result and takes one, so often.
fn send_often<R: Wait>(rt: &R, queue: &Actions, sender: &mut Sender, count: u32)
    requires { MaySend queue.now sender.old }
    ensures { IsPassOf queue.now sender.new.pass }
{
    let Some(mut token) = sender.token.take() else {
        return;
    };
    for _time in 0..count {
        put(rt, queue, &mut sender.pass, token);
        token = take(rt, queue, &mut sender.pass);
    }
}

fn senders(
    alloc: Global,
    queue: &Actions,
    job: &Job,
    passes: Many<QueuePass>,
) -> Result<Vec<Sender>, AllocError>
    requires job { job.now ≡ job_of queue.now }
    requires performs { IsSomeAnd (slice_get job.now.algorithms 0) CanPerform }
    requires passes { All (IsPassOf queue.now) passes.items }
    ensures { IfOk result (λ it. All (MaySend queue.now) it.items) }
{
    let mut passes = passes;
    let mut made = Vec::new(alloc);
    while let Some(pass) = passes.pop() {
        made.push(make_sender(alloc, queue, job, pass)?)?;
    }
    Ok(made)
}

fn make_sender(
    alloc: Global,
    queue: &Actions,
    job: &Job,
    pass: QueuePass,
) -> Result<Sender, AllocError>
    requires job { job.now ≡ job_of queue.now }
    requires performs { IsSomeAnd (slice_get job.now.algorithms 0) CanPerform }
    requires pass { IsPassOf queue.now pass }
    ensures { IfOk result (MaySend queue.now) }
{
    let token = Some(result_of(alloc, job)?);
    Ok(Sender { pass, token })
}

// A queue, and a sender for each thread.
fn set_up(alloc: Global, threads: u8) -> Result<(Actions, Vec<Sender>), AllocError>
    requires { 0 < threads }
    ensures { IfOk result (λ it. All (MaySend it.0) it.1.items) }
{
    let job = Arc::new(alloc, job(alloc)?)?;
    let (queue, passes) = Actions::new(alloc, Arc::try_clone(&job)?, threads)?;
    let senders = senders(alloc, &queue, &job, passes)?;
    Ok((queue, senders))
}

fn send_all<R: Clock + Threads + Wait + Sync>(
    rt: &R,
    queue: &Actions,
    senders: &mut [Sender],
    count: u32,
) -> io::Result<Duration>
    requires { All (MaySend queue.now) senders.old }
{
    let start = Instant::now(rt)?;
    let threads = senders.len().max(1);
    thread::for_each_mut(
        rt,
        senders,
        threads,
        &|_, sender| { send_often(rt, queue, sender, count) },
    );
    start.elapsed(rt)
}

/// How long so many threads take, each of which puts a result and takes one so often.
pub(crate) fn time_actions<R: Clock + Threads + Wait + Sync>(
    rt: &R,
    alloc: Global,
    threads: u8,
    count: u32,
) -> anyhow::Result<Duration> {
    let (queue, mut senders) = set_up(alloc, threads.max(1))?;
    let elapsed = send_all(rt, &queue, senders.as_mut_slice(), count);
    Ok(elapsed?)
}

fn pass_often<R: Wait>(rt: &R, queue: &ArrayQueue<Done>, token: &mut Option<Done>, count: u32) {
    for _time in 0..count {
        if let Some(value) = token.take() {
            let _ = queue.push(rt, value);
        }
        *token = queue.pop(rt);
    }
}

// A result for each thread.
fn tokens(alloc: Global, threads: u8) -> Result<Vec<Option<Done>>, AllocError> {
    let job = job(alloc)?;
    let mut made = Vec::new(alloc);
    for _thread in 0..threads {
        made.push(Some(result_of(alloc, &job)?))?;
    }
    Ok(made)
}

fn pass_all<R: Clock + Threads + Wait + Sync>(
    rt: &R,
    queue: &ArrayQueue<Done>,
    tokens: &mut [Option<Done>],
    count: u32,
) -> io::Result<Duration> {
    let start = Instant::now(rt)?;
    let threads = tokens.len().max(1);
    thread::for_each_mut(
        rt,
        tokens,
        threads,
        &|_, token| { pass_often(rt, queue, token, count) },
    );
    start.elapsed(rt)
}

/// The same through the kit's queue.
pub(crate) fn time_array<R: Clock + Threads + Wait + Sync>(
    rt: &R,
    alloc: Global,
    threads: u8,
    count: u32,
) -> anyhow::Result<Duration> {
    let queue = ArrayQueue::new(alloc, MOST_WAITING)?;
    let mut tokens = tokens(alloc, threads)?;
    let elapsed = pass_all(rt, &queue, tokens.as_mut_slice(), count);
    Ok(elapsed?)
}
