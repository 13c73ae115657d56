//! All instances and units.
ghost use Rattle.std.specs.Prelude.{◌≡◌, ◌<◌, ◌≤◌, true, IfOk, length, map};
ghost use Rattle.std.specs.List.{AllByRecursion};
ghost use Rattle.hive_model.specs.Valid.{IsValidJob};
ghost use Rattle.hive_model.specs.declared.limits.TheConstants.{MOST_INSTANCES};
ghost use Rattle.clone_pools.specs.Lending.{ComesBack, GivenBack, LendSays};
ghost use Rattle.clone_pools.specs.Loans.{IsExclusive, is_lent, opening, opening_pool};

use crate::lend::Lend;
use crate::pool::Pool;
use crate::units::{give_units, has_units, take_units};
use hive_model::{Algorithm, Job, Lent, Resource};
use std::alloc::{AllocError, Global};
use std::marker::Model;

/// The instances of all algorithms of a job, and the units of its resources (docs/PROCESSING.md,
/// "Claims").
///
/// Contracts see a pool for each algorithm, and how many units each resource has. What is out of these follows from
/// the loans.
#[derive(Drop)]
pub struct Pools {
    pools: Vec<Pool>,
    units: Vec<u8>,
    left: Vec<u8>,
}

impl Model for Pools {
    ghost use Rattle.clone_pools.specs.Instances.{AreCounted};
    ghost use Rattle.clone_pools.specs.Loans.{Pools as Shown};

    ghost Value = { Shown };

    ghost view = { λ it. record { pools = it.pools.items; units = it.units.items } };

    ghost invariant = { λ it. AreCounted it.pools.items it.units.items it.left.items };
}

impl Pools {
    /// All instances of a job, each with its scratch, and all units. Nothing is lent yet. The only error is that
    /// memory ran out.
    pub fn new(alloc: Global, job: &Job) -> Result<Pools, AllocError>
        requires { IsValidJob job.now }
        ensures { IfOk result (λ it. it ≡ opening job.now) }
    {
        let pools = all_pools(alloc, job.algorithms())?;
        let units = all_units(alloc, job.resources.as_slice())?;
        let left = all_units(alloc, job.resources.as_slice())?;
        Ok(Pools { pools, units, left })
    }

    /// Lends an instance of an algorithm to the event at a place of the input, and one unit of each resource that the
    /// algorithm names. A re-entrant algorithm has no instances: a scratch is made for it, which alone takes memory.
    /// The scratch holds no inputs. Where nothing is lent, all is as before.
    pub fn lend(&mut self, alloc: Global, algorithm: u16, place: u64) -> Lend
        requires { algorithm < length self.old.pools }
        ensures says { LendSays self.old algorithm place result self.new }
        ensures exclusive { IsExclusive self.new }
    {
        let number = usize::from(algorithm);
        if !has_units(self.left.as_slice(), self.pools[number].resources()) {
            return Lend::NotFree;
        }
        match self.pools[number].lend(alloc, algorithm, place) {
            Lend::Lent(lent) => {
                take_units(&mut self.left, self.pools[number].resources());
                Lend::Lent(lent)
            }
            Lend::NotFree => Lend::NotFree,
            Lend::NoMemory => Lend::NoMemory,
        }
    }

    /// Takes back what was lent, with its units. The scratch may be another one that is made for the algorithm. Its
    /// inputs are let go, so that no product of the event stays here. It takes no memory.
    pub fn give_back(&mut self, lent: Lent)
        requires out { is_lent self.old lent.algorithm lent.clone ≡ true }
        requires made_for { ComesBack self.old lent }
        ensures back { GivenBack self.old lent self.new }
        ensures exclusive { IsExclusive self.new }
    {
        let Lent {
            algorithm,
            clone,
            scratch,
        } = lent;
        let number = usize::from(algorithm);
        give_units(&mut self.left, self.pools[number].resources());
        self.pools[number].give_back(clone, scratch);
    }

    /// Whether that instance of an algorithm is lent; without one, whether an execution of a re-entrant algorithm is
    /// out.
    pub fn is_lent(&self, algorithm: u16, clone: Option<u8>) -> bool
        requires { algorithm < length self.now.pools }
        ensures { result ≡ is_lent self.now algorithm clone }
    {
        self.pools[usize::from(algorithm)].is_out(clone)
    }
}

fn all_pools(alloc: Global, algorithms: &[Algorithm]) -> Result<Vec<Pool>, AllocError>
    requires { AllByRecursion (λ a. a.cardinality ≤ MOST_INSTANCES) algorithms.now }
    ensures { IfOk result (λ it. it.items ≡ map opening_pool algorithms.now) }
{
    let mut pools = Vec::with_capacity(alloc, algorithms.len())?;
    for algorithm in algorithms {
        pools.push(Pool::new(alloc, algorithm)?)?;
    }
    Ok(pools)
}

fn all_units(alloc: Global, resources: &[Resource]) -> Result<Vec<u8>, AllocError>
    ensures { IfOk result (λ it. it.items ≡ map (λ r. r.units) resources.now) }
{
    resources
        .iter()
        .map(|resource| resource.units)
        .collect(alloc)
}
