//! Instances and units on loan.
//!
//! A row is calls with `;` between: `lend ALGORITHM PLACE` gives the algorithm and the instance of the loan and how many
//! inputs its scratch holds, or why there is none; `any` is the same where more instances are free than one, and
//! doesn't say which; `back ALGORITHM INSTANCE` gives back what is lent, and `is` with the same words says whether it
//! is lent. `-` is for no instance.
ghost use Rattle.std.specs.Prelude.{◌≡◌, ◌<◌, true, IfOk, IsSomeAnd, length, slice_get};
ghost use Rattle.hive_model.specs.Valid.{IsValidJob};
ghost use Rattle.hive_model.specs.Scratch.{IsMadeFor};
ghost use Rattle.clone_pools.specs.Loans.{is_lent};
ghost use Rattle.parts_rows.specs.Rooms.{ArePoolsOf};

use crate::words::{long, push_call, short, told, word};
use clone_pools::{Lend, Pools};
use hive_model::{Job, Lent, Scratch};
use std::alloc::{AllocError, Global};

/// What a row comes to.
pub(crate) fn pools_text(alloc: Global, job: &Job, calls: &str) -> Result<String, AllocError>
    requires { IsValidJob job.now }
{
    let mut pools = opened(alloc, job)?;
    let mut all = String::new(alloc);
    for call in calls.split(';') {
        let words: Vec<&str> = call.split_whitespace().collect(alloc)?;
        let text = answer(alloc, job, &mut pools, words.as_slice())?;
        push_call(&mut all, text.as_str())?;
    }
    Ok(all)
}

fn opened(alloc: Global, job: &Job) -> Result<Pools, AllocError>
    requires { IsValidJob job.now }
    ensures { IfOk result (ArePoolsOf job.now) }
{
    Pools::new(alloc, job)
}

fn answer(alloc: Global, job: &Job, pools: &mut Pools, words: &[&str]) -> Result<String, AllocError>
    requires { ArePoolsOf job.now pools.old }
    ensures { ArePoolsOf job.now pools.new }
{
    let algorithm = short(words, 1);
    if usize::from(algorithm) >= job.algorithms().len() {
        return told(alloc, "no algorithm");
    }
    match word(words, 0) {
        "lend" => lend_text(alloc, job, pools, algorithm, words),
        "any" => lend_text(alloc, job, pools, algorithm, words),
        "back" => back_text(alloc, job, pools, algorithm, word(words, 2).parse().ok()),
        "is" => is_text(alloc, job, pools, algorithm, word(words, 2).parse().ok()),
        _ => told(alloc, "no call"),
    }
}

fn lend_text(
    alloc: Global,
    job: &Job,
    pools: &mut Pools,
    algorithm: u16,
    words: &[&str],
) -> Result<String, AllocError>
    requires there { algorithm < length job.now.algorithms }
    requires pools { ArePoolsOf job.now pools.old }
    ensures { ArePoolsOf job.now pools.new }
{
    let lend = lent(alloc, job, pools, algorithm, long(words, 2));
    shown(alloc, &lend, word(words, 0) == "any")
}

fn lent(alloc: Global, job: &Job, pools: &mut Pools, algorithm: u16, place: u64) -> Lend
    requires there { algorithm < length job.now.algorithms }
    requires pools { ArePoolsOf job.now pools.old }
    ensures { ArePoolsOf job.now pools.new }
{
    pools.lend(alloc, algorithm, place)
}

fn shown(alloc: Global, lend: &Lend, any: bool) -> Result<String, AllocError> {
    match lend {
        Lend::Lent(lent) => shown_loan(alloc, lent, any),
        Lend::NotFree => told(alloc, "NotFree"),
        Lend::NoMemory => told(alloc, "NoMemory"),
    }
}

fn shown_loan(alloc: Global, lent: &Lent, any: bool) -> Result<String, AllocError> {
    if any {
        return told(alloc, "lent");
    }
    let inputs = lent.scratch.inputs().len();
    format!(in alloc; "{} {:?} {inputs}", lent.algorithm, lent.clone)
}

// The scratch that comes back is another one that is made for the algorithm.
fn back_text(
    alloc: Global,
    job: &Job,
    pools: &mut Pools,
    algorithm: u16,
    clone: Option<u8>,
) -> Result<String, AllocError>
    requires there { algorithm < length job.now.algorithms }
    requires pools { ArePoolsOf job.now pools.old }
    ensures { ArePoolsOf job.now pools.new }
{
    if !is_lent(job, pools, algorithm, clone) {
        return told(alloc, "no loan");
    }
    let scratch = Scratch::new(alloc, &job.algorithms()[usize::from(algorithm)])?;
    give_back(
        job,
        pools,
        Lent {
            algorithm,
            clone,
            scratch,
        },
    );
    told(alloc, "back")
}

fn give_back(job: &Job, pools: &mut Pools, lent: Lent)
    requires pools { ArePoolsOf job.now pools.old }
    requires out { is_lent pools.old lent.algorithm lent.clone ≡ true }
    requires made_for { IsSomeAnd (slice_get job.now.algorithms lent.algorithm) (λ a. IsMadeFor a lent.scratch) }
    ensures { ArePoolsOf job.now pools.new }
{
    pools.give_back(lent);
}

fn is_text(
    alloc: Global,
    job: &Job,
    pools: &Pools,
    algorithm: u16,
    clone: Option<u8>,
) -> Result<String, AllocError>
    requires there { algorithm < length job.now.algorithms }
    requires pools { ArePoolsOf job.now pools.now }
{
    format!(in alloc; "{}", is_lent(job, pools, algorithm, clone))
}

fn is_lent(job: &Job, pools: &Pools, algorithm: u16, clone: Option<u8>) -> bool
    requires there { algorithm < length job.now.algorithms }
    requires pools { ArePoolsOf job.now pools.now }
    ensures { result ≡ is_lent pools.now algorithm clone }
{
    pools.is_lent(algorithm, clone)
}
