//! The workers' side.
ghost use Rattle.std.specs.Prelude.{◌≡◌, ◌<◌, All, length};
ghost use Rattle.hall_loop.specs.Opened.{IsNewWorker};
ghost use Rattle.hall_loop.specs.Others.{HasOnlyWorked};

use expr_code::Steps;
use hive_hall::{Hall, Pass};
use hive_workers::{Gate, Worker};
use std::alloc::Global;
use std::marker::Brand;
use std::sync::Wait;
use std::sync::ledger::{Blank, Ledger};
use std::thread;
use std::thread::Threads;

/// Runs a worker with each of these passes, each on a thread of its own where one can be had, until all have returned.
pub fn work_all<R: Threads + Wait + Sync, G: Gate>(
    rt: &R,
    alloc: Global,
    hall: &Hall,
    gate: &G,
    passes: &mut [Pass],
)
    requires { All (IsNewWorker hall.now) passes.old }
    ensures count { length passes.new ≡ length passes.old }
    ensures worked { All (HasOnlyWorked hall.now) passes.new }
{
    let threads = passes.len();
    if threads == 0 {
        return;
    }
    thread::for_each_mut(
        rt,
        passes,
        threads,
        &|_, pass: &mut Pass|
            requires { IsNewWorker hall.now pass.now }
            ensures { HasOnlyWorked hall.entry.now pass.exit.now }
        { work(rt, alloc, hall, gate, pass) },
    );
}

/// One worker's run with a new pass of the hall, whose executions are counted by themselves (`Worker::run` of
/// hive_workers). It waits for the hall's lock, and that it ever ends isn't promised.
pub fn work<R: Wait, G: Gate>(rt: &R, alloc: Global, hall: &Hall, gate: &G, pass: &mut Pass)
    requires { IsNewWorker hall.now pass.old }
    ensures { HasOnlyWorked hall.now pass.new }
{
    work_counted::<R, G, Brand>(rt, alloc, hall, gate, pass, Blank::new(1));
}

// One worker's run, whose executions are counted.
fn work_counted<R: Wait, G: Gate, L: Ledger>(
    rt: &R,
    alloc: Global,
    hall: &Hall,
    gate: &G,
    pass: &mut Pass,
    blank: Blank,
)
    requires name { blank.name ≡ L.name }
    requires parts { blank.parts ≡ L.parts }
    requires some { 0 < L.parts }
    requires new { IsNewWorker hall.now pass.old }
    ensures { HasOnlyWorked hall.now pass.new }
{
    let mut steps = Steps::<L>::new(blank);
    let _end = Worker::new().run(rt, alloc, hall, pass, gate, &mut steps);
}
