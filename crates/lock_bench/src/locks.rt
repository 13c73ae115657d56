//! Threads that count behind one lock.
ghost use Rattle.std.specs.Prelude.{◌≡◌, ◌+◌, ◌<◌, ◌≤◌, [], All, vec_len, vec_capacity};
ghost use Rattle.lock_bench.specs.Passes.{IsReady};

use std::alloc::Global;
use std::rt::Clock;
use std::sync::{Mutex, Wait};
use std::thread::Threads;
use std::time::{Duration, Instant};
use std::{io, thread};
use turn_lock::{Kept, Turn, TurnPass};

// A number that keeps no history.
#[derive(Drop)]
struct Number {
    number: u64,
}

impl Kept for Number {
    type Item = u64;

    ghost list = { λ _. [] };

    fn items(&self) -> u64 {
        0
    }
}

fn turn_once<R: Wait>(rt: &R, turn: &Turn<Number>, pass: &mut TurnPass<Number>)
    requires { IsReady turn.now 1 pass.old }
    ensures { IsReady turn.now 1 pass.new }
{
    let mut value = turn.hold(rt, pass);
    value.number = value.number.wrapping_add(1);
    turn.release(pass, value);
}

fn turn_often<R: Wait>(rt: &R, turn: &Turn<Number>, pass: &mut TurnPass<Number>, count: u32)
    requires { IsReady turn.now 1 pass.old }
    ensures { IsReady turn.now 1 pass.new }
{
    for _time in 0..count {
        turn_once(rt, turn, pass);
    }
}

fn split_all(
    turn: &Turn<Number>,
    first: &mut TurnPass<Number>,
    passes: &mut Vec<TurnPass<Number>>,
    threads: usize,
)
    requires first { IsReady turn.now (threads + 1) first.old }
    requires room { (vec_len passes.old ≡ 0) × (threads ≤ vec_capacity passes.old) }
    ensures first { IsReady turn.now 1 first.new }
    ensures passes { All (IsReady turn.now 1) passes.new.items × (vec_len passes.new ≡ threads) }
{
    for made in 0..threads {
        let Ok(pass) = turn.split(first) else {
            unreachable!()
        };
        passes.push_reserved(pass);
    }
}

fn join_all(
    turn: &Turn<Number>,
    mut first: TurnPass<Number>,
    mut passes: Vec<TurnPass<Number>>,
) -> TurnPass<Number>
    requires first { IsReady turn.now 1 first }
    requires passes { All (IsReady turn.now 1) passes.items }
    requires few { vec_len passes < 256 }
    ensures { IsReady turn.now (vec_len passes + 1) result }
{
    while let Some(pass) = passes.pop() {
        turn.join(&mut first, pass);
    }
    first
}

fn run_turns<R: Clock + Threads + Wait + Sync>(
    rt: &R,
    turn: &Turn<Number>,
    passes: &mut [TurnPass<Number>],
    count: u32,
) -> io::Result<Duration>
    requires { All (IsReady turn.now 1) passes.old }
    ensures { All (IsReady turn.now 1) passes.new }
{
    let start = Instant::now(rt)?;
    let threads = passes.len().max(1);
    thread::for_each_mut(
        rt,
        passes,
        threads,
        &|_, pass| { turn_often(rt, turn, pass, count) },
    );
    start.elapsed(rt)
}

/// How long so many threads take, each of which takes its turn so often.
pub(crate) fn time_turn<R: Clock + Threads + Wait + Sync>(
    rt: &R,
    alloc: Global,
    threads: u8,
    count: u32,
) -> anyhow::Result<Duration> {
    let mut passes = Vec::with_capacity(alloc, usize::from(threads))?;
    let (turn, mut first) = match Turn::new(alloc, Number { number: 0 }, u32::from(threads) + 1) {
        Ok(made) => made,
        Err((_number, error)) => return Err(error.into()),
    };
    split_all(&turn, &mut first, &mut passes, usize::from(threads));
    let elapsed = run_turns(rt, &turn, passes.as_mut_slice(), count);
    let whole = join_all(&turn, first, passes);
    let _number = turn.close(whole);
    Ok(elapsed?)
}

fn count_often<R: Wait>(rt: &R, number: &Mutex<u64>, count: u32) {
    for _time in 0..count {
        let mut guard = number.lock(rt);
        *guard = guard.wrapping_add(1);
    }
}

fn count_all<R: Clock + Threads + Wait + Sync>(
    rt: &R,
    number: &Mutex<u64>,
    seats: &mut [u8],
    count: u32,
) -> io::Result<Duration> {
    let start = Instant::now(rt)?;
    let threads = seats.len().max(1);
    thread::for_each_mut(
        rt,
        seats,
        threads,
        &|_, _seat| { count_often(rt, number, count) },
    );
    start.elapsed(rt)
}

/// The same behind std's mutex.
pub(crate) fn time_mutex<R: Clock + Threads + Wait + Sync>(
    rt: &R,
    alloc: Global,
    threads: u8,
    count: u32,
) -> anyhow::Result<Duration> {
    let number = Mutex::new(0);
    let mut seats = Vec::from_elem(alloc, 0u8, usize::from(threads))?;
    let elapsed = count_all(rt, &number, seats.as_mut_slice(), count);
    Ok(elapsed?)
}
