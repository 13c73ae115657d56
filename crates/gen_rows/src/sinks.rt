//! What sinks get.
ghost use Rattle.std.specs.Prelude.{◌≤◌};
ghost use Rattle.text_model.specs.declared.limits.TheConstants.{MOST_EVENTS};

use crate::case::Case;
use crate::pieces::Pieces;
use gen_out::send_records;
use hive_edge::MemSink;
use std::alloc::{AllocError, Global};

// The most bytes that a sink takes in one call.
const TAKES: usize = 1_000;

// The most bytes of a records text that is sent here.
const ROOM: usize = 4_194_304;

/// What a sink got that never fails, and one whose third call fails, with the answer.
pub(crate) fn sink_line(alloc: Global, case: Case) -> Result<String, AllocError>
    requires { case.events ≤ MOST_EVENTS }
{
    let whole = sent(alloc, case, Vec::new(alloc))?;
    let broken = sent(alloc, case, Vec::from_array(alloc, [3])?)?;
    format!(in alloc; "{whole}, or {broken}\n")
}

fn sent(alloc: Global, case: Case, failing: Vec<u64>) -> Result<String, AllocError>
    requires { case.events ≤ MOST_EVENTS }
{
    let mut sink = MemSink::new(alloc, TAKES, ROOM, failing)?;
    let answer = send_records(alloc, case.start, case.events, &mut sink);
    let mut got = Pieces::new();
    got.add(sink.got());
    let (bytes, digest) = (got.bytes, got.digest);
    format!(in alloc; "{answer:?} with {bytes} bytes, digest {digest}")
}
