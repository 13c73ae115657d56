//! Times the lock beside std's mutex, and the queue of results beside the kit's plain one. `bench/lock` builds and
//! runs it.
//!
//! With a count each of 1, 2, 4 and 8 threads takes its turn so often, or puts a result and takes one, and the program
//! prints nanoseconds for each time. Without one it says that it takes a count.
#![tactic(auto)]

mod locks;
mod queues;
mod results;

use locks::{time_mutex, time_turn};
use queues::{time_actions, time_array};
use std::alloc::Global;
use std::env;
use std::rt::Runtime;
use std::sync::Wait;
use std::thread::Threads;
use std::time::Duration;

fn main(rt: HostRuntime) -> anyhow::Result<()> {
    let mut words = env::args(&rt)?;
    let _program = words.next();
    match words.next() {
        Some(word) => measure(&rt, rt.alloc(), word.parse()?),
        None => {
            println!(rt; "words: COUNT")?;
            Ok(())
        }
    }
}

// Nanoseconds for each time.
fn each(whole: Duration, threads: u8, count: u32) -> u128 {
    whole.as_nanos() / (u128::from(threads) * u128::from(count)).max(1)
}

fn measure<R: Runtime + Threads + Wait + Sync>(
    rt: &R,
    alloc: Global,
    count: u32,
) -> anyhow::Result<()> {
    for threads in [1u8, 2, 4, 8] {
        let turn = each(time_turn(rt, alloc, threads, count)?, threads, count);
        let mutex = each(time_mutex(rt, alloc, threads, count)?, threads, count);
        println!(rt; "{threads} threads: hold and release {turn} ns, mutex {mutex} ns")?;
    }
    for threads in [1u8, 2, 4, 8] {
        let actions = each(time_actions(rt, alloc, threads, count)?, threads, count);
        let array = each(time_array(rt, alloc, threads, count)?, threads, count);
        println!(rt; "{threads} threads: put and take {actions} ns, ArrayQueue {array} ns")?;
    }
    Ok(())
}
