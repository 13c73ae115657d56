//! Where the reports go.
ghost use Rattle.std.specs.Prelude.{◌≡◌, ℕ, ◌<◌, List, ◌++◌, Option, length, OnOk, OnErr};
ghost use Rattle.std.specs.Io.KnownBytes.{Appends, Keeps};
ghost use Rattle.hive_edge.specs.Fault.{HasCause};
ghost use Rattle.hive_edge.specs.Sink.{Writes, TakesSome, LeavesRoom, BreaksOff};

use crate::Failed;

/// A stream of bytes that takes pieces of any size.
pub trait Sink {
    /// The bytes that the sink got; `None` where it doesn't tell them.
    ghost got: { Self → Option (List ℕ) };

    /// How often the sink has failed. The count never falls, and stands still at 2 ^ 64 - 1.
    ghost faults: { Self → ℕ };

    /// A text that may be written, whole or in pieces: a sink without faults must have room for it, and
    /// any other sink admits each text.
    ghost admits: { Self → List ℕ → Type 0 };

    /// Appends bytes from the front of `piece`, and says how many: one at least. The only error is that
    /// the outside failed, and nothing was appended then.
    fn write(&mut self, piece: &[u8]) -> Result<usize, Failed>
        requires some { 0 < length piece.now }
        requires room { admits self.old piece.now }
        ensures count { TakesSome result piece.now }
        ensures bytes { Writes (got self.old) (got self.new) result piece.now }
        ensures room { LeavesRoom (admits self.old) (admits self.new) result piece.now }
        ensures cause { HasCause (faults self.old) (faults self.new) result };

    /// Hands on what the sink may hold back. It appends nothing. The only error is that the outside failed.
    fn flush(&mut self) -> Result<(), Failed>
        ensures bytes { Keeps (got self.old) (got self.new) }
        ensures room { (text : List ℕ) → admits self.old text → admits self.new text }
        ensures cause { HasCause (faults self.old) (faults self.new) result };

    /// A front of an admitted text is admitted.
    ghost admits_front: { (sink : Self) (front rest : List ℕ) → admits sink (front ++ rest) → admits sink front };
}

/// Writes the whole of `piece`, which may be empty: what a write didn't take is written again.
///
/// The only error is that the outside failed; a front of the piece was then appended.
pub fn send<K: Sink>(sink: &mut K, piece: &[u8]) -> Result<(), Failed>
    requires { K.admits sink.old piece.now }
    ensures bytes { OnOk result (Appends (K.got sink.old) (K.got sink.new) piece.now) }
    ensures room { OnOk result ((rest : List ℕ) → K.admits sink.old (piece.now ++ rest) → K.admits sink.new rest) }
    ensures broken { OnErr result (BreaksOff (K.got sink.old) (K.got sink.new) (K.admits sink.old) (K.admits sink.new) piece.now) }
    ensures cause { HasCause (K.faults sink.old) (K.faults sink.new) result }
{
    let mut at = 0;
    'pieces: while at < piece.len() {
        match sink.write(&piece[at..]) {
            Ok(count) => at += count,
            Err(error) => return Err(error),
        }
    }
    Ok(())
}
