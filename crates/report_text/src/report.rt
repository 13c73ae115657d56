//! The report of one event as text (docs/FORMATS.md, "Report").
ghost use Rattle.std.specs.Prelude.{◌≡◌, ◌++◌, ◌∷◌, [], codes, map, length, OnOk, IfOk, unwrap_or, slice_get};
ghost use Rattle.std.specs.Fmt.{signed_decimal};
ghost use Rattle.std.specs.List.{enumerate_from, flat_map, zip};
ghost use Rattle.text_model.specs.Report.{report, line, decision_word, status_word, end_word, fault_word, place_word, numbers_text, product_text, event_line, node_line, alg_line, fault_lines, fault_line, lack_line, lack_lines, lacks_at, put_line, put_at, spaced};
ghost use Rattle.hive_model.specs.Same.{texts};
ghost use Rattle.hive_model.specs.Valid.{handle_names, output_names};

use crate::words::{word_of_decision, word_of_end, word_of_fault, word_of_place, word_of_status};
use hive_model::{Algorithm, Decision, End, EventResult, Job, Product, Sequence, Store};
use itoa::Buffer;
use std::alloc::{AllocError, Global};

fn push_three(
    out: &mut Vec<u8>,
    first: &[u8],
    second: &[u8],
    third: &[u8],
) -> Result<(), AllocError>
    ensures { OnOk result (out.new.items ≡ out.old.items ++ line (first.now ∷ second.now ∷ third.now ∷ [])) }
{
    out.extend_from_slice(first)?;
    out.push(b' ')?;
    out.extend_from_slice(second)?;
    out.push(b' ')?;
    out.extend_from_slice(third)?;
    out.push(b'\n')?;
    Ok(())
}

fn push_four(
    out: &mut Vec<u8>,
    first: &[u8],
    second: &[u8],
    third: &[u8],
    fourth: &[u8],
) -> Result<(), AllocError>
    ensures { OnOk result (out.new.items ≡ out.old.items ++ line (first.now ∷ second.now ∷ third.now ∷ fourth.now ∷ [])) }
{
    out.extend_from_slice(first)?;
    out.push(b' ')?;
    push_three(out, second, third, fourth)
}

fn push_number(out: &mut Vec<u8>, number: i64) -> Result<(), AllocError>
    ensures { OnOk result (out.new.items ≡ out.old.items ++ signed_decimal number) }
{
    let mut buffer = Buffer::new();
    out.extend_from_slice(buffer.format(number).as_bytes())
}

#[tactic(auto, unfolding(text_model::specs::Report::spaced))]
fn push_spaced_number(out: &mut Vec<u8>, number: &i64) -> Result<(), AllocError>
    ensures { OnOk result (out.new.items ≡ out.old.items ++ spaced number.now) }
{
    out.push(b' ')?;
    push_number(out, *number)
}

fn push_numbers(out: &mut Vec<u8>, numbers: &[i64]) -> Result<(), AllocError>
    ensures { OnOk result (out.new.items ≡ out.old.items ++ numbers_text numbers.now) }
{
    let Some((first, others)) = numbers.split_first() else {
        return Ok(());
    };
    push_number(out, *first)?;
    for number in others {
        push_spaced_number(out, number)?;
    }
    Ok(())
}

fn push_product(out: &mut Vec<u8>, product: &Product) -> Result<(), AllocError>
    ensures { OnOk result (out.new.items ≡ out.old.items ++ product_text product.now) }
{
    match product {
        Product::Num(number) => push_number(out, *number),
        Product::List(numbers) => {
            out.push(b'[')?;
            push_numbers(out, numbers.as_slice())?;
            out.push(b']')?;
            Ok(())
        }
    }
}

/// The names of a job's handles, in handle order.
pub fn names_of(alloc: Global, job: &Job) -> Result<Vec<&str>, AllocError>
    ensures { IfOk result (λ names. texts names.items ≡ handle_names job.now) }
{
    let mut names = Vec::with_capacity(alloc, job.raws().len())?;
    for raw in job.raws() {
        names.push(raw.name.as_str())?;
    }
    for algorithm in job.algorithms() {
        push_output_names(&mut names, algorithm)?;
    }
    Ok(names)
}

fn push_output_names<'a>(
    names: &mut Vec<&'a str>,
    algorithm: &'a Algorithm,
) -> Result<(), AllocError>
    ensures { OnOk result (texts names.new.items ≡ texts names.old.items ++ output_names algorithm.now) }
{
    for output in algorithm.outputs() {
        names.push(output.name.as_str())?;
    }
    Ok(())
}

fn push_event(out: &mut Vec<u8>, job: &Job, event: &EventResult) -> Result<(), AllocError>
    ensures { OnOk result (out.new.items ≡ out.old.items ++ event_line job.now event.now) }
{
    let top = match event.decisions().get(usize::from(job.top)) {
        Some(decision) => *decision,
        None => Decision::Undecided,
    };
    let mut buffer = Buffer::new();
    push_four(
        out,
        b"event",
        buffer.format(event.event).as_bytes(),
        word_of_status(event.status).as_bytes(),
        word_of_decision(top).as_bytes(),
    )
}

fn push_nodes(
    out: &mut Vec<u8>,
    sequences: &[Sequence],
    decisions: &[Decision],
) -> Result<(), AllocError>
    ensures { OnOk result (out.new.items ≡ out.old.items ++ flat_map node_line (zip sequences.now decisions.now)) }
{
    for (index, sequence) in sequences.iter().enumerate() {
        let Some(decision) = decisions.get(index) else {
            return Ok(());
        };
        let word = word_of_decision(*decision);
        push_three(
            out,
            b"node",
            sequence.name.as_str().as_bytes(),
            word.as_bytes(),
        )?;
    }
    Ok(())
}

fn push_algorithms(
    out: &mut Vec<u8>,
    algorithms: &[Algorithm],
    ends: &[End],
) -> Result<(), AllocError>
    ensures { OnOk result (out.new.items ≡ out.old.items ++ flat_map alg_line (zip algorithms.now ends.now)) }
{
    for (index, algorithm) in algorithms.iter().enumerate() {
        let Some(end) = ends.get(index) else {
            return Ok(());
        };
        let word = word_of_end(*end);
        push_three(
            out,
            b"alg",
            algorithm.name.as_str().as_bytes(),
            word.as_bytes(),
        )?;
    }
    Ok(())
}

fn push_fault(out: &mut Vec<u8>, algorithm: &Algorithm, end: End) -> Result<(), AllocError>
    ensures { OnOk result (out.new.items ≡ out.old.items ++ fault_lines algorithm.now end) }
{
    match end {
        End::Failed(place, fault) => {
            let at = word_of_place(algorithm, place);
            let word = word_of_fault(fault);
            push_four(
                out,
                b"fault",
                algorithm.name.as_str().as_bytes(),
                at.as_bytes(),
                word.as_bytes(),
            )
        }
        End::Initial => Ok(()),
        End::ControlReady => Ok(()),
        End::Withdrawn => Ok(()),
        End::Accepted => Ok(()),
        End::Rejected => Ok(()),
    }
}

fn push_faults(out: &mut Vec<u8>, algorithms: &[Algorithm], ends: &[End]) -> Result<(), AllocError>
    ensures { OnOk result (out.new.items ≡ out.old.items ++ flat_map fault_line (zip algorithms.now ends.now)) }
{
    for (index, algorithm) in algorithms.iter().enumerate() {
        let Some(end) = ends.get(index) else {
            return Ok(());
        };
        push_fault(out, algorithm, *end)?;
    }
    Ok(())
}

fn name_at<'a>(names: &[&'a str], handle: u16) -> &'a str
    ensures { result.now ≡ unwrap_or (slice_get (texts names.now) handle) [] }
{
    match names.get(usize::from(handle)) {
        Some(name) => *name,
        None => "",
    }
}

fn push_lack(
    out: &mut Vec<u8>,
    names: &[&str],
    store: &Store,
    algorithm: &Algorithm,
    input: u16,
) -> Result<(), AllocError>
    ensures { OnOk result (out.new.items ≡ out.old.items ++ lack_line (texts names.now) store.now algorithm.now input) }
{
    if store.has(input) {
        return Ok(());
    }
    let name = name_at(names, input);
    push_three(
        out,
        b"lack",
        algorithm.name.as_str().as_bytes(),
        name.as_bytes(),
    )
}

fn push_lacks_of(
    out: &mut Vec<u8>,
    names: &[&str],
    store: &Store,
    algorithm: &Algorithm,
) -> Result<(), AllocError>
    ensures { OnOk result (out.new.items ≡ out.old.items ++ flat_map (lack_line (texts names.now) store.now algorithm.now) algorithm.now.inputs) }
{
    for input in algorithm.inputs() {
        push_lack(out, names, store, algorithm, *input)?;
    }
    Ok(())
}

fn push_lacks_at_end(
    out: &mut Vec<u8>,
    names: &[&str],
    store: &Store,
    algorithm: &Algorithm,
    end: End,
) -> Result<(), AllocError>
    ensures { OnOk result (out.new.items ≡ out.old.items ++ lack_lines (texts names.now) store.now algorithm.now end) }
{
    match end {
        End::ControlReady => push_lacks_of(out, names, store, algorithm),
        End::Initial => Ok(()),
        End::Withdrawn => Ok(()),
        End::Accepted => Ok(()),
        End::Rejected => Ok(()),
        End::Failed(_, _) => Ok(()),
    }
}

fn push_lacks(
    out: &mut Vec<u8>,
    names: &[&str],
    store: &Store,
    algorithms: &[Algorithm],
    ends: &[End],
) -> Result<(), AllocError>
    ensures { OnOk result (out.new.items ≡ out.old.items ++ flat_map (lacks_at (texts names.now) store.now) (zip algorithms.now ends.now)) }
{
    for (index, algorithm) in algorithms.iter().enumerate() {
        let Some(end) = ends.get(index) else {
            return Ok(());
        };
        push_lacks_at_end(out, names, store, algorithm, *end)?;
    }
    Ok(())
}

#[tactic(auto, unfolding(text_model::specs::Report::put_line))]
fn push_put(out: &mut Vec<u8>, name: &str, product: &Product) -> Result<(), AllocError>
    ensures { OnOk result (out.new.items ≡ out.old.items ++ put_line name.now product.now) }
{
    out.extend_from_slice(b"put ")?;
    out.extend_from_slice(name.as_bytes())?;
    out.push(b' ')?;
    push_product(out, product)?;
    out.push(b'\n')?;
    Ok(())
}

fn push_place(out: &mut Vec<u8>, name: &str, store: &Store, handle: usize) -> Result<(), AllocError>
    ensures { OnOk result (out.new.items ≡ out.old.items ++ put_at store.now (handle, name.now)) }
{
    match store.product_at(handle) {
        Some(product) => push_put(out, name, product),
        None => Ok(()),
    }
}

fn push_puts(out: &mut Vec<u8>, names: &[&str], store: &Store) -> Result<(), AllocError>
    ensures { OnOk result (out.new.items ≡ out.old.items ++ flat_map (put_at store.now) (enumerate_from 0 (texts names.now))) }
{
    for (index, name) in names.iter().enumerate() {
        push_place(out, name, store, index)?;
    }
    Ok(())
}

/// Appends the report of one event. `names` are the names of the job's handles. The only error is that
/// memory ran out.
#[tactic(auto, unfolding(text_model::specs::Report::report))]
pub fn push_report(
    out: &mut Vec<u8>,
    job: &Job,
    names: &[&str],
    event: &EventResult,
) -> Result<(), AllocError>
    requires { texts names.now ≡ handle_names job.now }
    ensures { OnOk result (out.new.items ≡ out.old.items ++ report job.now event.now) }
{
    push_event(out, job, event)?;
    push_nodes(out, job.sequences(), event.decisions())?;
    push_algorithms(out, job.algorithms(), event.ends())?;
    push_faults(out, job.algorithms(), event.ends())?;
    push_lacks(out, names, &event.store, job.algorithms(), event.ends())?;
    push_puts(out, names, &event.store)
}
