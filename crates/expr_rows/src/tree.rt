//! An expression by recursion on its tree.
ghost use Rattle.std.specs.Prelude.{IfOk};
ghost use Rattle.hive_model.specs.Runnable.{AreInOrder, CanExecute, CanPerform, IsRunnable};

use crate::body::body;
use crate::shown::{show, show_fault};
use event_laws::valid_jobs::valid_is_runnable;
use hive_model::{
    Algorithm, End, EventRecord, EventResult, Expr, Job, Kind, Many, Member, Product, Raw,
    Sequence, Text,
};
use serial_meaning::closure;
use std::alloc::{AllocError, Global};

/// The value or the fault, as it is shown.
pub(crate) fn by_tree(
    alloc: Global,
    kind: Kind,
    value: Expr,
    hits: Product,
) -> Result<String, AllocError>
    requires { AreInOrder value }
{
    let job = job(alloc, body(alloc, kind, value)?)?;
    let record = record(alloc, hits)?;
    let ended = closure(alloc, &job, &record)?;
    show_result(alloc, &ended)
}

fn show_result(alloc: Global, ended: &EventResult) -> Result<String, AllocError> {
    match ended.ends().first() {
        Some(End::Failed(_, fault)) => show_fault(alloc, *fault),
        _ => show(alloc, ended.store.product_at(3)),
    }
}

fn record(alloc: Global, hits: Product) -> Result<EventRecord, AllocError> {
    let mut cells = Vec::with_capacity(alloc, 3)?;
    cells.push(Some(hits))?;
    cells.push(Some(Product::Num(7)))?;
    cells.push(Some(Product::Num(9)))?;
    Ok(EventRecord {
        event: 1,
        cells: Many::from_vec(cells),
    })
}

// The job of that one algorithm.
fn job(alloc: Global, algorithm: Algorithm) -> Result<Job, AllocError>
    requires { CanPerform algorithm }
    ensures { IfOk result IsRunnable }
{
    valid_is_runnable();
    let raws = raws(alloc)?;
    let top = top(alloc)?;
    let algorithms = Vec::from_array(alloc, [algorithm])?;
    Ok(Job {
        raws,
        resources: Many::new(alloc),
        algorithms: Many::from_vec(algorithms),
        sequences: top,
        top: 0,
    })
}

fn top(alloc: Global) -> Result<Many<Sequence>, AllocError> {
    let members = Many::from_vec([Member::Alg(0)].to_vec(alloc)?);
    let top = Sequence::new(Text::from_str(alloc, "Top")?, members);
    Ok(Many::from_vec(Vec::from_array(alloc, [top])?))
}

fn raws(alloc: Global) -> Result<Many<Raw>, AllocError> {
    let mut raws = Vec::with_capacity(alloc, 3)?;
    raws.push(raw(alloc, "hits", Kind::List)?)?;
    raws.push(raw(alloc, "total", Kind::Num)?)?;
    raws.push(raw(alloc, "run", Kind::Num)?)?;
    Ok(Many::from_vec(raws))
}

fn raw(alloc: Global, name: &str, kind: Kind) -> Result<Raw, AllocError> {
    let name = Text::from_str(alloc, name)?;
    Ok(Raw { name, kind })
}
