//! A sink in memory that never fails.
ghost use Rattle.std.specs.Prelude.{◌≡◌, ◌+◌, ◌<◌, ◌≤◌, [], ◌++◌, Some, IsOk, IfOk, length, min, take};

use crate::{Failed, Sink};
use std::alloc::{AllocError, Global};
use std::marker::Model;

/// Room in memory for a text, which takes it in pieces. It never fails, but what is written to it must fit.
///
/// Contracts see the bytes taken as `got`, the room left as `left`, and the most that one call takes as
/// `piece`.
#[derive(Debug, Drop)]
pub struct CleanSink {
    bytes: Vec<u8>,
    left: usize,
    piece: usize,
}

impl Model for CleanSink {
    ghost use Rattle.std.specs.Prelude.{◌+◌, ◌<◌, ◌≤◌, vec_len, vec_capacity};
    ghost use Rattle.hive_edge.specs.CleanSink.{CleanSink as Shown};

    ghost Value = { Shown };

    ghost view = { λ it. record { got = it.bytes.items; left = it.left; piece = it.piece } };

    ghost invariant = { λ it. (0 < it.piece) × (vec_len it.bytes + it.left ≤ vec_capacity it.bytes) };
}

impl CleanSink {
    /// An empty sink with room for `room` bytes, which takes at most `piece` of them in one call. The only
    /// error is running out of memory; writes take none.
    pub fn new(alloc: Global, piece: usize, room: usize) -> Result<CleanSink, AllocError>
        requires { 0 < piece }
        ensures got { IfOk result (λ it. it.got ≡ []) }
        ensures left { IfOk result (λ it. it.left ≡ room) }
        ensures piece { IfOk result (λ it. it.piece ≡ piece) }
    {
        Ok(CleanSink {
            bytes: Vec::with_capacity(alloc, room)?,
            left: room,
            piece,
        })
    }

    /// The bytes that the sink took.
    pub fn got(&self) -> &[u8]
        ensures { result.now ≡ self.now.got }
    {
        self.bytes.as_slice()
    }
}

impl Sink for CleanSink {
    ghost use Rattle.std.proofs.Common.{arith, length-append};

    ghost got = { λ it. Some it.got };

    ghost faults = { λ _. 0 };

    ghost admits = { λ it text. length text ≤ it.left };

    ghost admits_front = { λ it front rest h. Prim.grind (arith, length-append) };

    fn write(&mut self, piece: &[u8]) -> Result<usize, Failed>
        requires some { 0 < length piece.now }
        requires room { length piece.now ≤ self.old.left }
        ensures ok { IsOk result }
        ensures count { IfOk result (λ n. n ≡ min self.old.piece (length piece.now)) }
        ensures some { IfOk result (λ n. 0 < n) }
        ensures bytes { IfOk result (λ n. self.new.got ≡ self.old.got ++ take n piece.now) }
        ensures left { IfOk result (λ n. self.new.left + n ≡ self.old.left) }
        ensures piece { self.new.piece ≡ self.old.piece }
    {
        let count = piece.len().min(self.piece);
        match self.bytes.extend_from_slice(&piece[..count]) {
            Ok(()) => {
                self.left -= count;
                Ok(count)
            }
            Err(_) => unreachable!(),
        }
    }

    fn flush(&mut self) -> Result<(), Failed>
        ensures ok { IsOk result }
        ensures unchanged { self.new ≡ self.old }
    {
        Ok(())
    }
}
