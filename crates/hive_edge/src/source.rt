//! Where the records come from.
ghost use Rattle.std.specs.Prelude.{◌≡◌, ℕ, ◌<◌, ◌≤◌, List, Option, length, IfOk};
ghost use Rattle.std.specs.Io.KnownBytes.{IsAtEnd};
ghost use Rattle.hive_edge.specs.Fault.{HasCause};
ghost use Rattle.hive_edge.specs.Source.{Takes};

use crate::Failed;

/// A stream of bytes that are read in pieces of any size.
pub trait Source {
    /// The bytes still to come; `None` where the source doesn't tell them.
    ghost rest: { Self → Option (List ℕ) };

    /// How often the source has failed. The count never falls, and stands still at 2 ^ 64 - 1.
    ghost faults: { Self → ℕ };

    /// Reads bytes into the front of `buf`, and says how many. 0 means the end of the input, and comes
    /// only there. The only error is that the outside failed, and the rest is then as before.
    fn read(&mut self, buf: &mut [u8]) -> Result<usize, Failed>
        requires { 0 < length buf.old }
        ensures bound { IfOk result (λ n. n ≤ length buf.new) }
        ensures bytes { Takes (rest self.old) (rest self.new) result buf.new }
        ensures end { IfOk result (λ n. n ≡ 0 → IsAtEnd (rest self.new)) }
        ensures cause { HasCause (faults self.old) (faults self.new) result };
}
