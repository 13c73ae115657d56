//! A sink in memory that fails where it is told to.
ghost use Rattle.std.specs.Prelude.{◌≡◌, ◌+◌, ◌<◌, ◌==◌, ◌||◌, [], ◌++◌, Some, IfOk, OnOk, OnErr, is_err, length, min, take};
ghost use Rattle.hive_edge.specs.Fault.{HasCause};
ghost use Rattle.hive_edge.specs.Failing.{fails_next, counted, failed};

use crate::failing::Failing;
use crate::{Failed, Sink};
use std::alloc::{AllocError, Global};
use std::marker::Model;

/// Room in memory for a text, which takes it in pieces. The calls whose numbers were named, counted from
/// 1, fail, and so do writes where no room is left. Flushes are counted among the calls.
///
/// Contracts see the bytes taken as `got`, the room left as `left`, the most that one call takes as
/// `piece`, and the calls and faults so far as `failing`.
#[derive(Debug, Drop)]
pub struct MemSink {
    bytes: Vec<u8>,
    left: usize,
    piece: usize,
    failing: Failing,
}

impl Model for MemSink {
    ghost use Rattle.std.specs.Prelude.{◌+◌, ◌<◌, ◌≤◌, vec_len, vec_capacity};
    ghost use Rattle.hive_edge.specs.MemSink.{MemSink as Shown};

    ghost Value = { Shown };

    ghost view = { λ it. record { got = it.bytes.items; left = it.left; piece = it.piece; failing = it.failing } };

    ghost invariant = { λ it. (0 < it.piece) × (vec_len it.bytes + it.left ≤ vec_capacity it.bytes) };
}

impl MemSink {
    /// An empty sink with room for `room` bytes, which takes at most `piece` of them in one call, and of
    /// which the calls with these numbers fail. The only error is running out of memory; writes take none.
    pub fn new(
        alloc: Global,
        piece: usize,
        room: usize,
        failing: Vec<u64>,
    ) -> Result<MemSink, AllocError>
        requires { 0 < piece }
        ensures got { IfOk result (λ it. it.got ≡ []) }
        ensures left { IfOk result (λ it. it.left ≡ room) }
        ensures piece { IfOk result (λ it. it.piece ≡ piece) }
        ensures failing { IfOk result (λ it. it.failing ≡ record { calls = 0; numbers = failing.items; faults = 0 }) }
    {
        Ok(MemSink {
            bytes: Vec::with_capacity(alloc, room)?,
            left: room,
            piece,
            failing: Failing::new(failing),
        })
    }

    /// The bytes that the sink took.
    pub fn got(&self) -> &[u8]
        ensures { result.now ≡ self.now.got }
    {
        self.bytes.as_slice()
    }
}

impl Sink for MemSink {
    ghost got = { λ it. Some it.got };

    ghost faults = { λ it. it.failing.faults };

    ghost admits = { λ _ _. Unit {0} };

    ghost admits_front = { λ _ _ _ _. tt };

    fn write(&mut self, piece: &[u8]) -> Result<usize, Failed>
        requires { 0 < length piece.now }
        ensures fails { is_err result ≡ (fails_next self.old.failing || (self.old.left == 0)) }
        ensures count { IfOk result (λ n. n ≡ min self.old.piece (min (length piece.now) self.old.left)) }
        ensures some { IfOk result (λ n. 0 < n) }
        ensures bytes { IfOk result (λ n. self.new.got ≡ self.old.got ++ take n piece.now) }
        ensures left { IfOk result (λ n. self.new.left + n ≡ self.old.left) }
        ensures piece { self.new.piece ≡ self.old.piece }
        ensures counted { OnOk result (self.new.failing ≡ counted self.old.failing) }
        ensures err { OnErr result (self.new ≡ record self.old { failing = failed self.old.failing }) }
        ensures cause { HasCause self.old.failing.faults self.new.failing.faults result }
    {
        self.failing.call()?;
        if self.left == 0 {
            return Err(self.failing.fail());
        }
        let count = piece.len().min(self.piece).min(self.left);
        match self.bytes.extend_from_slice(&piece[..count]) {
            Ok(()) => {
                self.left -= count;
                Ok(count)
            }
            Err(_) => unreachable!(),
        }
    }

    fn flush(&mut self) -> Result<(), Failed>
        ensures fails { is_err result ≡ fails_next self.old.failing }
        ensures ok { OnOk result (self.new ≡ record self.old { failing = counted self.old.failing }) }
        ensures err { OnErr result (self.new ≡ record self.old { failing = failed self.old.failing }) }
        ensures cause { HasCause self.old.failing.faults self.new.failing.faults result }
    {
        self.failing.call()
    }
}
