//! A line for each event.
ghost use Rattle.std.specs.Prelude.{◌≡◌, ◌++◌, ◌+◌, ◌*◌, ◌<◌, ◌≤◌, decimal, length, IfOk, OnOk};
ghost use Rattle.std.specs.Fmt.{signed_decimal};
ghost use Rattle.std.specs.List.{flat_map};
ghost use Rattle.hive_gen.specs.Draws.{state_after};
ghost use Rattle.hive_gen.specs.Events.{divisor_of, event_of, hit, hits_from, hits_of, state_behind};
ghost use Rattle.hive_gen.specs.EventTexts.{cell_text, event_line};
ghost use Rattle.text_model.specs.Report.{numbers_text, spaced};

use crate::draws::{drawn, next_state};
use itoa::Buffer;
use std::alloc::AllocError;

// No line of an event has more bytes: three numbers and eight more in a list, each of at most 40.
pub(crate) const MOST_EVENT_BYTES: usize = 411;

fn hit(draw: u64) -> i64
    ensures { result ≡ hit draw }
{
    (draw % 1000) as i64 - 200
}

fn push_hit(out: &mut Vec<u8>, draw: u64) -> Result<(), AllocError>
    ensures text { OnOk result (out.new.items ≡ out.old.items ++ signed_decimal (hit draw)) }
    ensures short { OnOk result (length out.new.items ≤ length out.old.items + 40) }
{
    let mut buffer = Buffer::new();
    out.extend_from_slice(buffer.format(hit(draw)).as_bytes())
}

// So many hits, each behind a space. It gives the state that they leave.
fn push_further_hits(out: &mut Vec<u8>, count: u64, state: u64) -> Result<u64, AllocError>
    ensures text { OnOk result (out.new.items ≡ out.old.items ++ flat_map spaced (hits_from count state)) }
    ensures short { OnOk result (length out.new.items ≤ length out.old.items + 41 * count) }
    ensures state { IfOk result (λ behind. behind ≡ state_after count state) }
{
    let (mut left, mut latest) = (count, state);
    while 0 < left {
        latest = next_state(latest);
        out.push(b' ')?;
        push_hit(out, drawn(latest))?;
        left -= 1;
    }
    Ok(latest)
}

// So many hits, one at least, with a space between. It gives the state that they leave.
fn push_hits(out: &mut Vec<u8>, count: u64, state: u64) -> Result<u64, AllocError>
    requires { 0 < count }
    ensures text { OnOk result (out.new.items ≡ out.old.items ++ numbers_text (hits_from count state)) }
    ensures short { OnOk result (length out.new.items ≤ length out.old.items + 41 * count) }
    ensures state { IfOk result (λ behind. behind ≡ state_after count state) }
{
    let first = next_state(state);
    push_hit(out, drawn(first))?;
    let behind = push_further_hits(out, count - 1, first)?;
    Ok(behind)
}

// The cell of the hits of that event. It gives the state that the event leaves.
#[tactic(auto, unfolding(crate::specs::Events::state_behind))]
fn push_hits_cell(out: &mut Vec<u8>, number: u32, state: u64) -> Result<u64, AllocError>
    ensures text { OnOk result (out.new.items ≡ out.old.items ++ cell_text (hits_of number state)) }
    ensures short { OnOk result (length out.new.items ≤ length out.old.items + 328) }
    ensures state { IfOk result (λ behind. behind ≡ state_behind number state) }
{
    if number % 10 == 0 {
        out.push(b'?')?;
        return Ok(state);
    }
    let count_drawn = next_state(state);
    let behind = push_hits(out, 1 + drawn(count_drawn) % 8, count_drawn)?;
    Ok(behind)
}

fn divisor(number: u32) -> u32
    ensures { result ≡ divisor_of number }
{
    if number % 25 == 0 { 0 } else { number }
}

fn push_number(out: &mut Vec<u8>, number: u32) -> Result<(), AllocError>
    ensures text { OnOk result (out.new.items ≡ out.old.items ++ decimal number) }
    ensures short { OnOk result (length out.new.items ≤ length out.old.items + 40) }
{
    let mut buffer = Buffer::new();
    out.extend_from_slice(buffer.format(number).as_bytes())
}

// Appends the line of that event, and gives the state that the event leaves. The only error is that memory
// ran out.
#[tactic(auto, unfolding(crate::specs::EventTexts::event_line, crate::specs::Events::event_of))]
pub(crate) fn push_event(out: &mut Vec<u8>, number: u32, state: u64) -> Result<u64, AllocError>
    ensures text { OnOk result (out.new.items ≡ out.old.items ++ event_line (event_of number state)) }
    ensures short { OnOk result (length out.new.items ≤ length out.old.items + MOST_EVENT_BYTES) }
    ensures state { IfOk result (λ behind. behind ≡ state_behind number state) }
{
    push_number(out, number)?;
    out.push(b',')?;
    let behind = push_hits_cell(out, number, state)?;
    out.push(b',')?;
    push_number(out, divisor(number))?;
    out.push(b'\n')?;
    Ok(behind)
}
