//! Threads that note numbers behind one lock: each is there once at the end, and each thread's are in its order.
ghost use Rattle.std.specs.Prelude.{◌≡◌, ◌+◌, ◌<◌, ◌≤◌, vec_len, vec_capacity};
ghost use Rattle.hive_rows.specs.Passes.{IsReady, AreReady};

use std::sync::Wait;
use std::test::Fail;
use std::thread;
use turn_lock::{Kept, Turn, TurnPass};

const THREADS: usize = 8;

// How often each thread takes its turn.
const TURNS: usize = 200;

#[derive(Drop)]
struct Notes {
    numbers: Vec<u64>,
}

impl Kept for Notes {
    type Item = u64;

    ghost list = { λ notes. notes.numbers.items };

    fn items(&self) -> u64 {
        self.numbers.len() as u64
    }
}

// Notes a number, if memory suffices.
fn note<R: Wait>(rt: &R, turn: &Turn<Notes>, pass: &mut TurnPass<Notes>, number: u64)
    requires { IsReady turn.now 1 pass.old }
    ensures { IsReady turn.now 1 pass.new }
{
    let mut notes = turn.hold(rt, pass);
    let _ = notes.numbers.push(number);
    turn.release(pass, notes);
}

// Notes this thread's numbers in order: its own number times TURNS, and up.
fn note_all<R: Wait>(rt: &R, turn: &Turn<Notes>, pass: &mut TurnPass<Notes>, thread: usize)
    requires pass { IsReady turn.now 1 pass.old }
    requires thread { thread < 256 }
    ensures { IsReady turn.now 1 pass.new }
{
    for k in 0..TURNS {
        note(rt, turn, pass, (thread * TURNS + k) as u64);
    }
}

// A pass for each thread.
fn split_all(turn: &Turn<Notes>, first: &mut TurnPass<Notes>, passes: &mut Vec<TurnPass<Notes>>)
    requires first { IsReady turn.now (THREADS + 1) first.old }
    requires room { (vec_len passes.old ≡ 0) × (THREADS ≤ vec_capacity passes.old) }
    ensures first { IsReady turn.now 1 first.new }
    ensures passes { AreReady turn.now passes.new.items × (vec_len passes.new ≡ THREADS) }
{
    for made in 0..THREADS {
        let Ok(pass) = turn.split(first) else {
            unreachable!()
        };
        passes.push_reserved(pass);
    }
}

// All passes in one.
fn join_all(
    turn: &Turn<Notes>,
    mut first: TurnPass<Notes>,
    mut passes: Vec<TurnPass<Notes>>,
) -> TurnPass<Notes>
    requires first { IsReady turn.now 1 first }
    requires passes { AreReady turn.now passes.items }
    requires few { vec_len passes < 256 }
    ensures { IsReady turn.now (vec_len passes + 1) result }
{
    while let Some(pass) = passes.pop() {
        turn.join(&mut first, pass);
    }
    first
}

#[test]
fn threads_take_turns(rt: HostRuntime) -> Result<(), Fail> {
    let mut passes: Vec<TurnPass<Notes>> = Vec::with_capacity(rt.alloc(), THREADS)?;
    let notes = Notes {
        numbers: Vec::with_capacity(rt.alloc(), THREADS * TURNS)?,
    };
    let (turn, mut first) = match Turn::new(rt.alloc(), notes, THREADS as u32 + 1) {
        Ok(made) => made,
        Err((_notes, failed)) => return Err(failed.into()),
    };
    split_all(&turn, &mut first, &mut passes);
    let shared = &turn;
    thread::for_each_mut(
        &rt,
        passes.as_mut_slice(),
        THREADS,
        &|i, pass| { note_all(&rt, shared, pass, i) },
    );
    let whole = join_all(&turn, first, passes);
    let notes = turn.close(whole);
    let numbers = notes.numbers.as_slice();
    assert_eq!(rt; numbers.len(), THREADS * TURNS);
    for thread in 0..THREADS {
        let low = (thread * TURNS) as u64;
        let mut next = low;
        for number in numbers {
            if *number == next && next < low + TURNS as u64 {
                next += 1;
            }
        }
        assert_eq!(rt;
            next,
            low + TURNS as u64,
            "the numbers of thread {thread} stand in its order"
        );
    }
    Ok(())
}
