//! A graph by number.
ghost use Rattle.std.specs.Prelude.{◌≡◌, ◌≤◌, ◌+◌, true, length};
ghost use Rattle.hive_model.specs.declared.limits.TheConstants.{MOST_HANDLES};
ghost use Rattle.text_model.specs.Producers.{handles_of};

use crate::words::{names_of, words_of};
use hive_model::{MOST_ALGORITHMS, MOST_HANDLES, Text};
use producer_graph::{Graph, Need, build};
use std::alloc::{AllocError, Global};
use text_model::GraphRefusal;

/// What the graph of a row comes to.
pub(crate) fn graph_text(alloc: Global, raws: &str, needs: &str) -> Result<String, AllocError> {
    let raws = words_of(alloc, raws)?;
    let needs = needs_of(alloc, needs)?;
    if needs.len() > MOST_ALGORITHMS || !are_few(raws.as_slice(), needs.as_slice()) {
        return String::from_str(alloc, "too many");
    }
    text_of(alloc, raws.as_slice(), needs.as_slice())
}

fn text_of(alloc: Global, raws: &[Text], needs: &[Need]) -> Result<String, AllocError>
    requires few_handles { length (handles_of raws.now needs.now) ≤ MOST_HANDLES }
    requires few_needs { length needs.now ≤ 1024 }
{
    match build(alloc, raws, needs) {
        Ok(graph) => shown(alloc, &graph),
        Err(refusal) => told(alloc, &refusal),
    }
}

fn needs_of(alloc: Global, text: &str) -> Result<Vec<Need>, AllocError> {
    let mut needs = Vec::new(alloc);
    for part in text.split(';') {
        if let Some((name, rest)) = part.split_once(':') {
            needs.push(need_of(alloc, name.trim(), rest)?)?;
        }
    }
    Ok(needs)
}

fn need_of(alloc: Global, name: &str, rest: &str) -> Result<Need, AllocError> {
    let (inputs, outputs) = rest.split_once('>').unwrap_or((rest, ""));
    Ok(Need {
        name: Text::from_str(alloc, name)?,
        inputs: names_of(alloc, inputs)?,
        outputs: names_of(alloc, outputs)?,
    })
}

// Whether there are at most as many handles as a job may have.
fn are_few(raws: &[Text], needs: &[Need]) -> bool
    ensures { result ≡ true → length (handles_of raws.now needs.now) ≤ MOST_HANDLES }
{
    if raws.len() > MOST_HANDLES {
        return false;
    }
    let mut left = MOST_HANDLES - raws.len();
    for need in needs {
        let count = need.outputs.as_slice().len();
        if count > left {
            return false;
        }
        left -= count;
    }
    true
}

// Of each handle its producer and its consumers.
fn shown(alloc: Global, graph: &Graph) -> Result<String, AllocError> {
    let mut text = String::from_str(alloc, "graph")?;
    for handle in 0..graph.len() {
        let producer = graph.producer(handle);
        let consumers = graph.consumers(handle);
        let part = format!(in alloc; " {producer:?}{consumers:?}")?;
        text.push_str(part.as_str())?;
    }
    Ok(text)
}

fn told(alloc: Global, refusal: &GraphRefusal) -> Result<String, AllocError> {
    match refusal {
        GraphRefusal::TwoProducers { handle } => {
            format!(in alloc; "TwoProducers {}", handle.as_str())
        }
        GraphRefusal::NoProducer { algorithm, handle } => {
            format!(in alloc; "NoProducer {} {}", algorithm.as_str(), handle.as_str())
        }
        GraphRefusal::DataCycle { algorithm } => {
            format!(in alloc; "DataCycle {}", algorithm.as_str())
        }
        GraphRefusal::NoMemory => Err(AllocError),
    }
}
