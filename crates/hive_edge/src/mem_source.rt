//! A source in memory that fails where it is told to.
ghost use Rattle.std.specs.Prelude.{◌≡◌, ◌<◌, [], ◌++◌, Some, IfOk, OnOk, OnErr, is_err, length, min, take};
ghost use Rattle.hive_edge.specs.Fault.{HasCause};
ghost use Rattle.hive_edge.specs.Failing.{fails_next, counted, failed};

use crate::failing::Failing;
use crate::pieces::copy_piece;
use crate::{Failed, Source};
use std::marker::Model;

/// Bytes in memory, read in pieces. The calls whose numbers were named, counted from 1, fail.
///
/// Contracts see the bytes still to come as `rest`, the most that one call gives as `piece`, and the
/// calls and faults so far as `failing`.
#[derive(Debug, Drop)]
pub struct MemSource {
    bytes: Vec<u8>,
    at: usize,
    piece: usize,
    failing: Failing,
}

impl Model for MemSource {
    ghost use Rattle.std.specs.Prelude.{◌<◌, ◌≤◌, drop, length};
    ghost use Rattle.hive_edge.specs.MemSource.{MemSource as Shown};

    ghost Value = { Shown };

    ghost view = { λ it. record { rest = drop it.at it.bytes.items; piece = it.piece; failing = it.failing } };

    ghost invariant = { λ it. (0 < it.piece) × (it.at ≤ length it.bytes.items) };
}

impl MemSource {
    /// A source of these bytes, which gives at most `piece` of them in one call, and of which the calls
    /// with these numbers fail.
    pub fn new(bytes: Vec<u8>, piece: usize, failing: Vec<u64>) -> MemSource
        requires { 0 < piece }
        ensures rest { result.rest ≡ bytes.items }
        ensures piece { result.piece ≡ piece }
        ensures failing { result.failing ≡ record { calls = 0; numbers = failing.items; faults = 0 } }
    {
        MemSource {
            bytes,
            at: 0,
            piece,
            failing: Failing::new(failing),
        }
    }
}

impl Source for MemSource {
    ghost rest = { λ it. Some it.rest };

    ghost faults = { λ it. it.failing.faults };

    fn read(&mut self, buf: &mut [u8]) -> Result<usize, Failed>
        requires { 0 < length buf.old }
        ensures fails { is_err result ≡ fails_next self.old.failing }
        ensures count { IfOk result (λ n. n ≡ min self.old.piece (min (length buf.new) (length self.old.rest))) }
        ensures bytes { IfOk result (λ n. self.old.rest ≡ take n buf.new ++ self.new.rest) }
        ensures end { IfOk result (λ n. n ≡ 0 → self.new.rest ≡ []) }
        ensures piece { self.new.piece ≡ self.old.piece }
        ensures counted { OnOk result (self.new.failing ≡ counted self.old.failing) }
        ensures err { OnErr result (self.new ≡ record self.old { failing = failed self.old.failing }) }
        ensures cause { HasCause self.old.failing.faults self.new.failing.faults result }
    {
        self.failing.call()?;
        let count = copy_piece(self.bytes.as_slice(), self.at, self.piece, buf);
        self.at += count;
        Ok(count)
    }
}
