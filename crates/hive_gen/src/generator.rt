//! Records piece by piece.
ghost use Rattle.std.specs.Prelude.{◌≡◌, ℕ, ◌+◌, ◌≤◌, ◌<◌, ◌==◌, ◌++◌, true, false, List, [], length, IfOk, OnErr, OnOk};
ghost use Rattle.hive_gen.specs.EventTexts.{records_text};
ghost use Rattle.hive_gen.specs.Rest.{IsWithin, rest_of};
ghost use Rattle.text_model.specs.declared.limits.TheConstants.{MOST_EVENTS};

use crate::event_lines::{MOST_EVENT_BYTES, push_event};
use std::alloc::{AllocError, Global};
use std::marker::Model;

const HEADER: &[u8] = b"event,hits,div\n";

// A piece ends with the line that makes it as long as this.
const PIECE: usize = 65_536;

/// The most bytes of a piece that [`Generator::push_piece`] appends.
pub const MOST_PIECE_BYTES: usize = 66_000;

// A place in a records text.
#[derive(Clone, Copy, Debug)]
struct Position {
    // Whether the header is behind it.
    headed: bool,
    // How many events are left.
    left: u32,
    // The number of the next one.
    number: u32,
    // The state before it.
    state: u64,
}

impl Position {
    fn is_end(&self) -> bool
        ensures { result ≡ (length (rest_of self.now) == 0) }
    {
        self.headed && self.left == 0
    }
}

// Appends the next line, if there is one. The only error is that memory ran out.
fn push_line(out: &mut Vec<u8>, at: Position) -> Result<Position, AllocError>
    requires { IsWithin at }
    ensures text { IfOk result (λ it. out.new.items ++ rest_of it ≡ out.old.items ++ rest_of at) }
    ensures onward { OnOk result (0 < length (rest_of at) → length out.old.items < length out.new.items) }
    ensures short { OnOk result (length out.new.items ≤ length out.old.items + MOST_EVENT_BYTES) }
    ensures within { IfOk result IsWithin }
{
    if !at.headed {
        out.extend_from_slice(HEADER)?;
        return Ok(Position { headed: true, ..at });
    }
    if at.left == 0 {
        return Ok(at);
    }
    let state = push_event(out, at.number, at.state)?;
    Ok(Position {
        left: at.left - 1,
        number: at.number + 1,
        state,
        ..at
    })
}

// Appends lines, one at least if there is one, up to the size of a piece. The only error is that memory ran
// out.
fn push_lines(out: &mut Vec<u8>, first: Position) -> Result<Position, AllocError>
    requires { IsWithin first }
    ensures text { IfOk result (λ it. out.new.items ++ rest_of it ≡ out.old.items ++ rest_of first) }
    ensures onward { OnOk result (0 < length (rest_of first) → length out.old.items < length out.new.items) }
    ensures short { OnOk result (length out.new.items ≤ length out.old.items + MOST_PIECE_BYTES) }
    ensures within { IfOk result IsWithin }
{
    let enough = out.len().saturating_add(PIECE);
    let mut at = push_line(out, first)?;
    while out.len() < enough && !at.is_end() {
        at = push_line(out, at)?;
    }
    Ok(at)
}

/// A records text that is generated piece by piece, so that it is never held as a whole. Contracts see what
/// of the text is still to come.
#[derive(Debug, Drop)]
pub struct Generator {
    at: Position,
}

impl Model for Generator {
    ghost Value = { List ℕ };

    ghost view = { λ it. rest_of it.at };

    ghost invariant = { λ it. IsWithin it.at };
}

impl Generator {
    /// The records text of a start and a number of events (docs/FORMATS.md, "Generator"). It takes no memory.
    pub fn new(start: u64, events: u32) -> Generator
        requires { events ≤ MOST_EVENTS }
        ensures { result ≡ records_text start events }
    {
        Generator {
            at: Position {
                headed: false,
                left: events,
                number: 1,
                state: start,
            },
        }
    }

    /// Whether nothing is still to come.
    pub fn is_end(&self) -> bool
        ensures over { result ≡ true → self.now ≡ [] }
        ensures further { result ≡ false → 0 < length self.now }
    {
        self.at.is_end()
    }

    /// Appends the next piece of the text, whole lines: as many as make 65,536 bytes, or all that are still
    /// to come. So a buffer that is cleared in between never grows over [`MOST_PIECE_BYTES`]. The only error
    /// is running out of memory. Then a part of the piece may be appended, and all of it is still to come.
    pub fn push_piece(&mut self, out: &mut Vec<u8>) -> Result<(), AllocError>
        ensures text { OnOk result (out.new.items ++ self.new ≡ out.old.items ++ self.old) }
        ensures onward { OnOk result (0 < length self.old → length self.new < length self.old) }
        ensures short { OnOk result (length out.new.items ≤ length out.old.items + MOST_PIECE_BYTES) }
        ensures same { OnErr result (self.new ≡ self.old) }
    {
        self.at = push_lines(out, self.at)?;
        Ok(())
    }
}

/// The records text of a start and a number of events as a whole (docs/FORMATS.md, "Generator"). The only
/// error is running out of memory.
pub fn records(alloc: Global, start: u64, events: u32) -> Result<Vec<u8>, AllocError>
    requires { events ≤ MOST_EVENTS }
    ensures { IfOk result (λ text. text.items ≡ records_text start events) }
{
    let mut text = Vec::new(alloc);
    let mut generator = Generator::new(start, events);
    while !generator.is_end() {
        generator.push_piece(&mut text)?;
    }
    Ok(text)
}
