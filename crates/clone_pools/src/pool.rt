//! The instances of one algorithm.
ghost use Rattle.std.specs.Prelude.{◌≡◌, ◌<◌, ◌≤◌, ℕ, true, false, All, Some, None, [], IfOk, IfSome, IfNone, IsSomeAnd, MatchOption, is_none, is_some, length, map, replicate, slice_get, slice_set};
ghost use Rattle.std.specs.List.{list_any};
ghost use Rattle.std.specs.Option.{option_flatten};
ghost use Rattle.hive_model.specs.declared.limits.TheConstants.{MOST_INSTANCES};
ghost use Rattle.clone_pools.specs.Instances.{IsKept, place_of};
ghost use Rattle.clone_pools.specs.Lending.{PoolSays, ServesOne};
ghost use Rattle.clone_pools.specs.Loans.{is_out, is_reentrant, opening_pool, without_loan};
ghost use Rattle.clone_pools.specs.Room.{HasRoom};
ghost use Rattle.clone_pools.specs.declared.room.Room.{Room};

use crate::instance::Instance;
use crate::lend::Lend;
use crate::room::Room;
use hive_model::{Algorithm, Lent, Scratch};
use std::alloc::{AllocError, Global};
use std::marker::Model;
use std::mem;

/// The instances of one algorithm. A re-entrant one has none: each of its executions gets a scratch of its own.
///
/// Contracts see of each instance the place of the event that has it.
#[derive(Debug, Drop)]
pub(crate) struct Pool {
    resources: Vec<u16>,
    room: Room,
    instances: Vec<Instance>,
    running: u64,
}

impl Model for Pool {
    ghost use Rattle.std.specs.Prelude.{◌≤◌, All, length, map};
    ghost use Rattle.hive_model.specs.declared.limits.TheConstants.{MOST_INSTANCES};
    ghost use Rattle.clone_pools.specs.Instances.{IsKept, place_of};
    ghost use Rattle.clone_pools.specs.Loans.{Pool as Shown};

    ghost Value = { Shown };

    ghost view = { λ it. record { resources = it.resources.items; room = it.room; lent = map place_of it.instances.items; running = it.running } };

    ghost invariant = { λ it. (length it.instances.items ≤ MOST_INSTANCES) × All (IsKept it.room) it.instances.items };
}

impl Pool {
    /// All instances of an algorithm, idle. The only error is that memory ran out.
    pub(crate) fn new(alloc: Global, algorithm: &Algorithm) -> Result<Pool, AllocError>
        requires { algorithm.now.cardinality ≤ MOST_INSTANCES }
        ensures { IfOk result (λ it. it ≡ opening_pool algorithm.now) }
    {
        let room = Room::of(algorithm);
        let instances = idle_instances(alloc, &room, algorithm.cardinality)?;
        let resources = copied(alloc, algorithm.resources.as_slice())?;
        Ok(Pool {
            resources,
            room,
            instances,
            running: 0,
        })
    }

    /// The resources of which an execution takes one unit each.
    pub(crate) fn resources(&self) -> &[u16]
        ensures { result.now ≡ self.now.resources }
    {
        self.resources.as_slice()
    }

    /// Lends an idle instance to the event at a place, or makes a scratch for a re-entrant algorithm.
    pub(crate) fn lend(&mut self, alloc: Global, algorithm: u16, place: u64) -> Lend
        ensures { PoolSays self.old algorithm place result self.new }
    {
        if self.instances.is_empty() {
            return self.lend_new(alloc, algorithm);
        }
        match first_idle(self.instances.as_slice()) {
            Some(clone) => {
                let scratch = take_scratch(&mut self.instances, clone, place);
                Lend::Lent(Lent {
                    algorithm,
                    clone: Some(clone),
                    scratch,
                })
            }
            None => Lend::NotFree,
        }
    }

    // A scratch for one more execution of a re-entrant algorithm.
    fn lend_new(&mut self, alloc: Global, algorithm: u16) -> Lend
        requires { is_reentrant self.old ≡ true }
        ensures { (place : ℕ) → PoolSays self.old algorithm place result self.new }
    {
        // so many scratches fit into no memory
        if self.running == u64::MAX {
            return Lend::NoMemory;
        }
        match self.room.scratch(alloc) {
            Ok(scratch) => {
                self.running += 1;
                Lend::Lent(Lent {
                    algorithm,
                    clone: None,
                    scratch,
                })
            }
            Err(_) => Lend::NoMemory,
        }
    }

    /// Takes back what was lent. The inputs are let go, so that no product of the event stays here.
    pub(crate) fn give_back(&mut self, clone: Option<u8>, scratch: Scratch)
        requires out { is_out self.old clone ≡ true }
        requires made_for { ServesOne self.old scratch }
        ensures { self.new ≡ without_loan self.old clone }
    {
        match clone {
            Some(clone) => {
                put_scratch(&mut self.instances, clone, scratch);
            }
            None => self.running -= 1,
        }
    }

    /// Whether that instance is lent; without one, whether an execution of a re-entrant algorithm is out.
    pub(crate) fn is_out(&self, clone: Option<u8>) -> bool
        ensures { result ≡ is_out self.now clone }
    {
        match clone {
            Some(clone) => is_lent(self.instances.as_slice(), clone),
            None => self.running > 0,
        }
    }
}

fn idle_instances(alloc: Global, room: &Room, count: u8) -> Result<Vec<Instance>, AllocError>
    ensures places { IfOk result (λ it. map place_of it.items ≡ replicate count None) }
    ensures kept { IfOk result (λ it. All (IsKept room.now) it.items) }
{
    let mut instances = Vec::with_capacity(alloc, usize::from(count))?;
    for _instance in 0..count {
        instances.push(Instance::Idle(room.scratch(alloc)?))?;
    }
    Ok(instances)
}

fn copied(alloc: Global, numbers: &[u16]) -> Result<Vec<u16>, AllocError>
    ensures { IfOk result (λ it. it.items ≡ numbers.now) }
{
    numbers.iter().copied().collect(alloc)
}

// The first instance that is idle.
fn first_idle(instances: &[Instance]) -> Option<u8>
    requires { length instances.now ≤ MOST_INSTANCES }
    ensures some { IfSome result (λ clone. slice_get (map place_of instances.now) clone ≡ Some None) }
    ensures none { IfNone result (list_any is_none (map place_of instances.now) ≡ false) }
{
    for (clone, instance) in instances.iter().enumerate() {
        if is_idle(instance) {
            return Some(clone as u8);
        }
    }
    None
}

fn is_idle(instance: &Instance) -> bool
    ensures { result ≡ is_none (place_of instance.now) }
{
    matches!(instance, Instance::Idle(_))
}

fn is_lent(instances: &[Instance], clone: u8) -> bool
    ensures { result ≡ is_some (option_flatten (slice_get (map place_of instances.now) clone)) }
{
    match instances.get(usize::from(clone)) {
        Some(instance) => !is_idle(instance),
        None => false,
    }
}

// The scratch of an idle instance, which the event at that place gets.
fn take_scratch(instances: &mut Vec<Instance>, clone: u8, place: u64) -> Scratch
    requires { slice_get (map place_of instances.old.items) clone ≡ Some None }
    ensures places { map place_of instances.new.items
        ≡ slice_set (map place_of instances.old.items) clone (Some place) }
    ensures kept { (room : Room)
        → All (IsKept room) instances.old.items
        → (HasRoom room result × (result.inputs ≡ []) × All (IsKept room) instances.new.items) }
{
    match mem::replace(&mut instances[usize::from(clone)], Instance::Lent(place)) {
        Instance::Idle(scratch) => scratch,
        Instance::Lent(_) => unreachable!(),
    }
}

// The scratch of a lent instance comes back, and lets its inputs go.
fn put_scratch(instances: &mut Vec<Instance>, clone: u8, scratch: Scratch)
    requires { is_some (option_flatten (slice_get (map place_of instances.old.items) clone)) ≡ true }
    ensures places { map place_of instances.new.items
        ≡ slice_set (map place_of instances.old.items) clone None }
    ensures kept { (room : Room)
        → HasRoom room scratch
        → All (IsKept room) instances.old.items
        → All (IsKept room) instances.new.items }
{
    instances[usize::from(clone)] = Instance::Idle(emptied(scratch));
}

fn emptied(scratch: Scratch) -> Scratch
    ensures inputs { result.inputs ≡ [] }
    ensures room { (room : Room) → HasRoom room scratch → HasRoom room result }
{
    let mut idle = scratch;
    idle.unload();
    idle
}
