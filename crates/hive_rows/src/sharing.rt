//! What an event is computed from may be shared by threads.

use hive_model::{Algorithm, Job, Kind, Many, Raw, Store, Text};
use std::alloc::{AllocError, Global};
use std::sync::Arc;
use std::test::Fail;
use std::thread;

fn plain_job(alloc: Global) -> Result<Job, AllocError> {
    let name = Text::from_str(alloc, "hits")?;
    let raw = Raw {
        name,
        kind: Kind::List,
    };
    let raws = Vec::from_array(alloc, [raw])?;
    let first = Algorithm::new(alloc, Text::from_str(alloc, "Sum")?, 1);
    let algorithms = Vec::from_array(alloc, [first])?;
    Ok(Job {
        raws: Many::from_vec(raws),
        resources: Many::new(alloc),
        algorithms: Many::from_vec(algorithms),
        sequences: Many::new(alloc),
        top: 0,
    })
}

#[test]
fn a_job_and_a_store_cross_threads(rt: HostRuntime) -> Result<(), Fail> {
    let job = Arc::new(rt.alloc(), plain_job(rt.alloc())?)?;
    let first = Store::with_room(rt.alloc(), 2)?;
    let second = Store::with_room(rt.alloc(), 3)?;
    let shared: &Job = &job;
    let (one, two) = thread::join(
        &rt,
        move || (shared.algorithms().len(), first.len()),
        move || (shared.algorithms().len(), second.len()),
    );
    assert_eq!(rt; one, (1, 2));
    assert_eq!(rt; two, (1, 3));
    Ok(())
}
