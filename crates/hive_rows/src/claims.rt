//! Claims are performed where they were sent.
ghost use Rattle.std.specs.Prelude.{◌≡◌, ◌<◌, IfOk};
ghost use Rattle.hive_model.specs.Runnable.{AreInOrder, CanPerform};

use expr_code::{Claimed, Done, Steps, perform};
use hive_model::{
    Algorithm, Binary, Expr, Fault, Kind, Lent, Many, Node, Outcome, Output, Place, Product,
    Scratch, Store, Text,
};
use std::alloc::{AllocError, Global};
use std::marker::Brand;
use std::sync::Arc;
use std::sync::ledger::{Blank, Ledger};
use std::test::Fail;
use std::thread;

// The number of handle 0, divided.
fn part(alloc: Global, divisor: i64) -> Result<Expr, AllocError>
    ensures { IfOk result AreInOrder }
{
    let nodes = [
        Node::Handle(0),
        Node::Number(divisor),
        Node::Binary(Binary::Div, 0, 1),
    ];
    Ok(Expr {
        nodes: Many::from_vec(nodes.to_vec(alloc)?),
    })
}

fn output(alloc: Global, value: Expr) -> Result<Output, AllocError>
    ensures { IfOk result (λ it. it.value ≡ value) }
{
    Ok(Output {
        name: Text::from_str(alloc, "part")?,
        kind: Kind::Num,
        value,
    })
}

// An algorithm that takes handle 0 and gives handle 1.
fn divider(alloc: Global, divisor: i64) -> Result<Algorithm, AllocError>
    ensures { IfOk result CanPerform }
{
    let mut outputs = Vec::new(alloc);
    outputs.push(output(alloc, part(alloc, divisor)?)?)?;
    let inputs = Vec::from_array(alloc, [0])?;
    Ok(Algorithm {
        name: Text::from_str(alloc, "Divider")?,
        cardinality: 1,
        resources: Many::new(alloc),
        inputs: Many::from_vec(inputs),
        first_output: 1,
        outputs: Many::from_vec(outputs),
        filter: None,
    })
}

// A claim of a divider over that number.
fn claimed(alloc: Global, divisor: i64, number: i64) -> Result<Claimed, AllocError> {
    let mut store = Store::with_room(alloc, 2)?;
    store.put(0, Arc::new(alloc, Product::Num(number))?);
    let body = Arc::new(alloc, divider(alloc, divisor)?)?;
    let mut scratch = Scratch::new(alloc, &body)?;
    scratch.load(body.inputs(), &store)?;
    let lent = Lent {
        algorithm: 0,
        clone: Some(0),
        scratch,
    };
    Ok(Claimed::new(3, 1, body, lent))
}

// Performs a claim and counts it, or gives its instance back where memory ran out.
fn spend<L: Ledger>(alloc: Global, claimed: Claimed, blank: Blank) -> Result<Done, AllocError>
    requires name { blank.name ≡ L.name }
    requires parts { blank.parts ≡ L.parts }
    requires some { 0 < L.parts }
    ensures { IfOk result (λ it. it.claim ≡ claimed) }
{
    let mut steps = Steps::<L>::new(blank);
    match perform(alloc, claimed, &mut steps) {
        Ok(done) => Ok(done),
        Err((claimed, error)) => {
            let _lent = claimed.into_lent();
            Err(error)
        }
    }
}

// The claim, performed.
pub(crate) fn spent(alloc: Global, claimed: Claimed) -> Result<Done, AllocError>
    ensures { IfOk result (λ it. it.claim ≡ claimed) }
{
    spend::<Brand>(alloc, claimed, Blank::new(1))
}

// Performs the claim that a slot holds. A claim can't be dropped, so a closure only borrows its slot.
fn take_and_spend(alloc: Global, slot: &mut Option<Claimed>) -> Result<Option<Done>, AllocError> {
    match slot.take() {
        Some(claimed) => Ok(Some(spent(alloc, claimed)?)),
        None => Ok(None),
    }
}

fn give_back(slot: Option<Claimed>) {
    if let Some(claimed) = slot {
        let _lent = claimed.into_lent();
    }
}

// Two claims: of a quotient by 1, and of one by 0.
fn slots(alloc: Global) -> Result<(Option<Claimed>, Option<Claimed>), AllocError> {
    let first = claimed(alloc, 1, 7)?;
    match claimed(alloc, 0, 5) {
        Ok(second) => Ok((Some(first), Some(second))),
        Err(error) => {
            let _lent = first.into_lent();
            Err(error)
        }
    }
}

#[test]
fn claims_cross_to_other_threads(rt: HostRuntime) -> Result<(), Fail> {
    let alloc = rt.alloc();
    let (mut first, mut second) = slots(alloc)?;
    let (one, two) = thread::join_mut(
        &rt,
        &mut || take_and_spend(alloc, &mut first),
        &mut || take_and_spend(alloc, &mut second),
    );
    give_back(first);
    give_back(second);
    let one = one?.map(|done| *done.outcome());
    let two = two?.map(|done| *done.outcome());
    assert_eq!(rt; one, Some(Outcome::Accepted));
    assert_eq!(rt;
        two,
        Some(Outcome::Failed(Place::Output(0), Fault::DivZero))
    );
    Ok(())
}
