//! Results that go through one queue from several threads to several others: each is there once at the end.
ghost use Rattle.std.specs.Prelude.{◌≡◌, ◌<◌, ◌≤◌, [], All, IfOk, IsSomeAnd, Some, length, slice_get};
ghost use Rattle.std.specs.Arc.{arc_value};
ghost use Rattle.expr_code.specs.Claim.{IsOfJob};
ghost use Rattle.hive_model.specs.Runnable.{CanPerform};
ghost use Rattle.action_queue.specs.Passes.{IsPassOf, job_of, passes_of};
ghost use Rattle.hive_rows.specs.Workers.{IsReady};

use crate::claims::spent;
use crate::worker::Worker;
use action_queue::{Actions, QueuePass};
use expr_code::{Claimed, Done};
use hive_model::{Algorithm, Duplicate, Job, Lent, Many, Scratch, Text};
use std::alloc::{AllocError, Global};
use std::sync::{Arc, Wait};
use std::test::Fail;
use std::thread;

// The first half of the workers put, and the others take.
const WORKERS: usize = 6;

// How many results each of them puts or takes.
const EACH: usize = 300;

fn job(alloc: Global) -> Result<Job, AllocError>
    ensures { IfOk result (λ it. IsSomeAnd (slice_get it.algorithms 0) CanPerform) }
{
    let first = Algorithm::new(alloc, Text::from_str(alloc, "Pass")?, 0);
    Ok(Job {
        raws: Many::new(alloc),
        resources: Many::new(alloc),
        algorithms: Many::from_vec(Vec::from_array(alloc, [first])?),
        sequences: Many::new(alloc),
        top: 0,
    })
}

// The result of the job's first algorithm with that ticket.
fn result_of(
    alloc: Global,
    queue: &Actions,
    body: &Arc<Algorithm>,
    ticket: u64,
) -> Result<Done, AllocError>
    requires performs { CanPerform (arc_value body.now) }
    requires body { slice_get (job_of queue.now).algorithms 0 ≡ Some (arc_value body.now) }
    ensures { IfOk result (λ it. IsOfJob (job_of queue.now) it.claim) }
{
    let lent = Lent {
        algorithm: 0,
        clone: Some(0),
        scratch: Scratch::new(alloc, body)?,
    };
    let claimed = Claimed::new(ticket, 1, Arc::try_clone(body)?, lent);
    spent(alloc, claimed)
}

// So many results of the queue's job, with tickets from `first` on.
fn results(
    alloc: Global,
    queue: &Actions,
    job: &Job,
    first: usize,
    count: usize,
) -> Result<Vec<Done>, AllocError>
    requires job { job.now ≡ job_of queue.now }
    requires performs { IsSomeAnd (slice_get job.now.algorithms 0) CanPerform }
    requires few { (first < 65536) × (count < 65536) }
    ensures { IfOk result (λ it. All (λ d. IsOfJob (job_of queue.now) d.claim) it.items) }
{
    let body = Arc::new(alloc, job.algorithms()[0].copy(alloc)?)?;
    let mut made = Vec::with_capacity(alloc, count)?;
    for number in 0..count {
        made.push(result_of(alloc, queue, &body, (first + number) as u64)?)?;
    }
    Ok(made)
}

// Puts a result, however often the queue is full before.
fn put<R: Wait>(rt: &R, queue: &Actions, pass: &mut QueuePass, value: Done)
    requires pass { IsPassOf queue.now pass.old }
    requires of_job { IsOfJob (job_of queue.now) value.claim }
    ensures { IsPassOf queue.now pass.new }
{
    let mut value = value;
    for _ in rt.forever() {
        match queue.put(rt, pass, value) {
            Ok(()) => return,
            Err(back) => value = back,
        }
        thread::yield_now();
    }
    unreachable!()
}

// Takes a result, however often the queue is empty before.
fn take<R: Wait>(rt: &R, queue: &Actions, pass: &mut QueuePass) -> Done
    requires { IsPassOf queue.now pass.old }
    ensures { IsPassOf queue.now pass.new }
{
    for _ in rt.forever() {
        if let Some(done) = queue.take(rt, pass) {
            return done;
        }
        thread::yield_now();
    }
    unreachable!()
}

// Puts all that the worker has to put, and then takes all that it has to take.
fn work<R: Wait>(rt: &R, queue: &Actions, worker: &mut Worker)
    requires { IsReady queue.now worker.old }
    ensures { IsPassOf queue.now worker.new.pass }
{
    while let Some(done) = worker.results.pop() {
        put(rt, queue, &mut worker.pass, done);
    }
    for _ in 0..worker.wants {
        let _ = worker.took.push(take(rt, queue, &mut worker.pass));
    }
}

fn make_worker(
    alloc: Global,
    queue: &Actions,
    job: &Job,
    number: usize,
    pass: QueuePass,
) -> Result<Worker, AllocError>
    requires job { job.now ≡ job_of queue.now }
    requires performs { IsSomeAnd (slice_get job.now.algorithms 0) CanPerform }
    requires few { number < WORKERS }
    requires pass { IsPassOf queue.now pass }
    ensures { IfOk result (IsReady queue.now) }
{
    let count = if number < WORKERS / 2 { EACH } else { 0 };
    let results = results(alloc, queue, job, number * EACH, count)?;
    Ok(Worker {
        pass,
        results,
        wants: EACH - count,
        took: Vec::with_capacity(alloc, EACH)?,
    })
}

// A worker for each pass.
fn workers(
    alloc: Global,
    job: &Job,
    queue: &Actions,
    passes: Many<QueuePass>,
) -> Result<Vec<Worker>, AllocError>
    requires job { job.now ≡ job_of queue.now }
    requires performs { IsSomeAnd (slice_get job.now.algorithms 0) CanPerform }
    requires passes { All (IsPassOf queue.now) passes.items × (length passes.items ≡ WORKERS) }
    ensures ready { IfOk result (λ it. All (IsReady queue.now) it.items) }
    ensures count { IfOk result (λ it. length it.items ≡ WORKERS) }
{
    let mut passes = passes;
    let mut made = Vec::with_capacity(alloc, WORKERS)?;
    while let Some(pass) = passes.pop() {
        made.push(make_worker(alloc, queue, job, made.len(), pass)?)?;
    }
    Ok(made)
}

// A queue of one job, and its workers.
fn set_up(alloc: Global) -> Result<(Actions, Vec<Worker>), AllocError>
    ensures ready { IfOk result (λ it. All (IsReady it.0) it.1.items) }
    ensures count { IfOk result (λ it. length it.1.items ≡ WORKERS) }
    ensures passes { IfOk result (λ it. passes_of it.0 ≡ WORKERS) }
{
    let job = Arc::new(alloc, job(alloc)?)?;
    let (queue, passes) = Actions::new(alloc, Arc::try_clone(&job)?, WORKERS as u8)?;
    let workers = workers(alloc, &job, &queue, passes)?;
    Ok((queue, workers))
}

// Notes the tickets of all that was taken, as far as memory suffices.
fn note_tickets(tickets: &mut Vec<u64>, workers: &[Worker]) {
    for worker in workers {
        for done in &worker.took {
            let _ = tickets.push(done.ticket());
        }
    }
}

// The passes come back.
fn give_back(queue: &Actions, workers: Vec<Worker>, passes: &mut Many<QueuePass>)
    requires workers { All (λ w. IsPassOf queue.now w.pass) workers.items }
    requires room { (passes.old.items ≡ []) × (length workers.items ≤ passes.old.spare) }
    ensures passes { All (IsPassOf queue.now) passes.new.items }
    ensures count { length passes.new.items ≡ length workers.items }
{
    let mut workers = workers;
    while let Some(worker) = workers.pop() {
        let Ok(()) = passes.push(worker.pass) else {
            unreachable!()
        };
    }
}

// Whether all tickets below `count` are among these, and no more.
fn are_all(tickets: &[u64], count: usize) -> bool {
    for ticket in 0..count {
        if !tickets.contains(&(ticket as u64)) {
            return false;
        }
    }
    tickets.len() == count
}

#[test]
fn results_go_through_a_queue(rt: HostRuntime) -> Result<(), Fail> {
    let (queue, mut workers) = set_up(rt.alloc())?;
    let mut passes = Many::with_room(rt.alloc(), WORKERS)?;
    let mut tickets = Vec::with_capacity(rt.alloc(), WORKERS * EACH)?;
    let shared = &queue;
    thread::for_each_mut(
        &rt,
        workers.as_mut_slice(),
        WORKERS,
        &|_, worker| { work(&rt, shared, worker) },
    );
    note_tickets(&mut tickets, workers.as_slice());
    give_back(&queue, workers, &mut passes);
    let mut left = queue.end(passes);
    let is_empty = left.take(&rt).is_none();
    let outcome = (is_empty, are_all(tickets.as_slice(), WORKERS / 2 * EACH));
    assert_eq!(rt; outcome, (true, true));
    Ok(())
}
