//! A source in memory that never fails.
ghost use Rattle.std.specs.Prelude.{◌≡◌, ◌<◌, [], ◌++◌, Some, IsOk, IfOk, length, min, take};

use crate::pieces::copy_piece;
use crate::{Failed, Source};
use std::marker::Model;

/// Bytes in memory, read in pieces. It never fails.
///
/// Contracts see the bytes still to come as `rest`, and the most that one call gives as `piece`.
#[derive(Debug, Drop)]
pub struct CleanSource {
    bytes: Vec<u8>,
    at: usize,
    piece: usize,
}

impl Model for CleanSource {
    ghost use Rattle.std.specs.Prelude.{◌<◌, ◌≤◌, drop, length};
    ghost use Rattle.hive_edge.specs.CleanSource.{CleanSource as Shown};

    ghost Value = { Shown };

    ghost view = { λ it. record { rest = drop it.at it.bytes.items; piece = it.piece } };

    ghost invariant = { λ it. (0 < it.piece) × (it.at ≤ length it.bytes.items) };
}

impl CleanSource {
    /// A source of these bytes, which gives at most `piece` of them in one call.
    pub fn new(bytes: Vec<u8>, piece: usize) -> CleanSource
        requires { 0 < piece }
        ensures rest { result.rest ≡ bytes.items }
        ensures piece { result.piece ≡ piece }
    {
        CleanSource {
            bytes,
            at: 0,
            piece,
        }
    }
}

impl Source for CleanSource {
    ghost rest = { λ it. Some it.rest };

    ghost faults = { λ _. 0 };

    fn read(&mut self, buf: &mut [u8]) -> Result<usize, Failed>
        requires { 0 < length buf.old }
        ensures ok { IsOk result }
        ensures count { IfOk result (λ n. n ≡ min self.old.piece (min (length buf.new) (length self.old.rest))) }
        ensures bytes { IfOk result (λ n. self.old.rest ≡ take n buf.new ++ self.new.rest) }
        ensures end { IfOk result (λ n. n ≡ 0 → self.new.rest ≡ []) }
        ensures piece { self.new.piece ≡ self.old.piece }
    {
        let count = copy_piece(self.bytes.as_slice(), self.at, self.piece, buf);
        self.at += count;
        Ok(count)
    }
}
