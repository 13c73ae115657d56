//! Calls of the base types, once each where memory suffices: a body that only answers that memory ran out keeps its
//! contract.
ghost use Rattle.std.specs.Prelude.{◌≡◌, IfOk, length};

use hive_model::{
    Algorithm, Duplicate, EventRecord, Ints, Job, Kind, Lent, Many, Product, Raw, Resource,
    Scratch, Sequence, Store, Text,
};
use std::alloc::{AllocError, Global};
use std::sync::Arc;

pub(crate) fn print_calls(rt: &HostRuntime) -> anyhow::Result<()> {
    let list = list(rt.alloc())?;
    println!(rt; "list {list:?}")?;
    let (copied, text) = copies(rt.alloc())?;
    println!(rt; "copies {copied} {}", text.as_str())?;
    let (first, second, shared) = places(rt.alloc())?;
    println!(rt; "places {first} {second} {shared}")?;
    let (raw, resource) = named(rt.alloc())?;
    println!(rt; "named {raw} {resource}")?;
    let (handles, kind) = handles(rt.alloc())?;
    println!(rt; "handles {handles} {kind:?}")?;
    let (inputs, rest) = loaded(rt.alloc())?;
    println!(rt; "loaded {inputs} {rest}")?;
    Ok(())
}

// A list that grows, is changed, copied and shrinks.
fn list(alloc: Global) -> Result<Vec<u16>, AllocError> {
    let mut list = Many::with_room(alloc, 2)?;
    list.reserve(3)?;
    for item in 0..4u16 {
        list.push(item).map_err(|(_, error)| error)?;
    }
    let _last = list.pop();
    for item in list.as_mut_slice() {
        *item = 7;
    }
    let copy = list.copy(alloc)?;
    list.clear();
    Ok(copy.into_vec())
}

// Whether a copy of a record is equal to it, and a copied text.
fn copies(alloc: Global) -> Result<(bool, Text), AllocError> {
    let numbers = Ints::from_vec(Ints::from_slice(alloc, &[3, -4])?.into_vec());
    let cells = Vec::from_array(alloc, [Some(Product::List(numbers)), None])?;
    let record = EventRecord {
        event: 7,
        cells: Many::from_vec(cells),
    };
    let copy = record.copy(alloc)?;
    Ok((copy == record, Text::from_str(alloc, "text")?.copy(alloc)?))
}

// What is in the two places of a store whose second one was filled, whether that can be shared, and that there is no
// third one.
fn places(alloc: Global) -> Result<(bool, bool, bool), AllocError> {
    let mut store = Store::with_room(alloc, 2)?;
    let product = Arc::new(alloc, Product::Num(5))?;
    store.put(1, product);
    let shared = store.share(1)?;
    Ok((
        store.get(0) == None && !store.has(0) && !store.has(2) && store.product_at(2) == None,
        store.get(1) == Some(&Product::Num(5)) && store.has(1),
        shared.is_some() && store.len() == 2 && store.into_places().len() == 2,
    ))
}

// The names of a handle and of a resource, out of copies.
fn named(alloc: Global) -> Result<(String, String), AllocError> {
    let raw = Raw {
        name: Text::from_str(alloc, "hits")?,
        kind: Kind::List,
    };
    let resource = Resource {
        name: Text::from_str(alloc, "board")?,
        units: 2,
    };
    let (raw, resource) = (raw.copy(alloc)?, resource.copy(alloc)?);
    Ok((raw.name.into_string(), resource.name.into_string()))
}

// How many handles a job with one of kind number has, and the kind.
fn handles(alloc: Global) -> Result<(u16, Kind), AllocError> {
    let raw = Raw {
        name: Text::from_str(alloc, "run")?,
        kind: Kind::Num,
    };
    let job = Job {
        raws: Many::from_vec(Vec::from_array(alloc, [raw])?),
        resources: Many::new(alloc),
        algorithms: Many::new(alloc),
        sequences: Many::new(alloc),
        top: 0,
    };
    Ok((job.handles(), job.kind_of(0)))
}

// An algorithm that takes the handles 0 and 1, copied.
fn taker(alloc: Global) -> Result<Algorithm, AllocError> {
    let mut algorithm = Algorithm::new(alloc, Text::from_str(alloc, "Taker")?, 2);
    algorithm.inputs = Many::from_vec([0, 1].to_vec(alloc)?);
    algorithm.copy(alloc)
}

fn taking_job(alloc: Global) -> Result<Job, AllocError>
    ensures { IfOk result (λ it. length it.algorithms ≡ 1) }
{
    let algorithms = Many::from_vec(Vec::from_array(alloc, [taker(alloc)?])?);
    let sequences: Many<Sequence> = Many::new(alloc);
    Ok(Job {
        raws: Many::new(alloc),
        resources: Many::new(alloc),
        algorithms,
        sequences,
        top: 0,
    })
}

// How many inputs an instance has that is loaded twice from a store with both, and once more where one is absent.
fn loaded(alloc: Global) -> Result<(usize, usize), AllocError> {
    let job = taking_job(alloc)?;
    let scratch = Scratch::new(alloc, &job.algorithms()[0])?;
    let mut lent = Lent {
        algorithm: 0,
        clone: Some(0),
        scratch,
    };
    let mut store = Store::with_room(alloc, 2)?;
    store.put(0, Arc::new(alloc, Product::Num(3))?);
    lent.load(&job, &store)?;
    let rest = lent.scratch.inputs().len();
    store.put(1, Arc::new(alloc, Product::Num(4))?);
    lent.load(&job, &store)?;
    lent.load(&job, &store)?;
    Ok((lent.scratch.inputs().len(), rest))
}
