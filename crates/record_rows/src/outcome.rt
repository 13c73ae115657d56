//! What a reader answered.
use event_records::Next;
use hive_model::{EventRecord, Product};
use std::alloc::{AllocError, Global};

/// The records of a text, and the answer behind them.
#[derive(Drop)]
pub(crate) struct Outcome {
    pub(crate) records: Vec<EventRecord>,
    pub(crate) ending: Next,
}

impl Outcome {
    pub(crate) fn is_same(&self, other: &Outcome) -> bool {
        self.records.as_slice() == other.records.as_slice() && self.ending == other.ending
    }

    /// How many records there are, the first two and the last, and the ending.
    pub(crate) fn shown(&self, alloc: Global) -> Result<String, AllocError> {
        let records = self.records.as_slice();
        let mut out = String::new(alloc);
        push(&mut out, alloc, records.len())?;
        for (index, record) in records.iter().enumerate() {
            if index < 2 || index == records.len() - 1 {
                push_record(&mut out, alloc, record)?;
            }
        }
        push_ending(&mut out, alloc, &self.ending)?;
        Ok(out)
    }
}

fn push(out: &mut String, alloc: Global, count: usize) -> Result<(), AllocError> {
    let text = format!(in alloc; "{count}")?;
    out.push_str(text.as_str())
}

fn push_record(out: &mut String, alloc: Global, record: &EventRecord) -> Result<(), AllocError> {
    let event = record.event;
    let text = format!(in alloc; " / {event}")?;
    out.push_str(text.as_str())?;
    for cell in record.cells() {
        match cell {
            Some(product) => push_product(out, alloc, product)?,
            None => out.push_str(" ?")?,
        }
    }
    Ok(())
}

fn push_product(out: &mut String, alloc: Global, product: &Product) -> Result<(), AllocError> {
    match product {
        Product::Num(number) => {
            let text = format!(in alloc; " {number}")?;
            out.push_str(text.as_str())
        }
        Product::List(numbers) => push_list(out, alloc, numbers.as_slice()),
    }
}

// The numbers of a list, or the first and the last of them and how many there are.
fn push_list(out: &mut String, alloc: Global, numbers: &[i64]) -> Result<(), AllocError> {
    let text = match numbers {
        [] | [_] | [_, _] | [_, _, _] => format!(in alloc; " {numbers:?}")?,
        [first, .., last] => {
            let count = numbers.len();
            format!(in alloc; " [{first} to {last}: {count}]")?
        }
    };
    out.push_str(text.as_str())
}

fn push_ending(out: &mut String, alloc: Global, ending: &Next) -> Result<(), AllocError> {
    match ending {
        Next::Refused(refusal) => {
            let (line, cause) = (refusal.line, refusal.cause);
            let text = format!(in alloc; " / {line} {cause:?}")?;
            out.push_str(text.as_str())
        }
        Next::Finished => out.push_str(" / finished"),
        _ => out.push_str(" / no ending"),
    }
}
