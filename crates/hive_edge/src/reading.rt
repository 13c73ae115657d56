//! Reading a source to its end.
ghost use Rattle.std.specs.Prelude.{◌≡◌, ◌⊎◌, ◌<◌, [], length, IfOk, OnOk};
ghost use Rattle.std.specs.Io.KnownBytes.{Consumes, IsAtEnd};
ghost use Rattle.hive_edge.specs.Reading.{Adds, InputCause};

use crate::Source;
use std::alloc::AllocError;
use thiserror::Error;

/// Why a source wasn't read to its end.
#[derive(Clone, Copy, Debug, PartialEq, Eq, Error)]
pub enum InputFault {
    /// The source failed: its count of faults rose, or stands at its last value.
    #[error("the source failed")]
    Failed,
    /// Memory ran out.
    #[error("memory ran out")]
    NoMemory,
}

impl From<AllocError> for InputFault {
    ghost use Rattle.std.specs.Prelude.{◌≡◌};
    ghost use Rattle.hive_edge.specs.declared.reading.InputFault.TheVariants.{NoMemory};

    ghost from_gives = { λ _ e. e ≡ NoMemory };

    fn from(_: AllocError) -> Self {
        InputFault::NoMemory
    }
}

/// Reads a source to its end into `text`, which is empty before, or until more than `limit` bytes have come.
pub fn read_all<S: Source>(
    source: &mut S,
    limit: usize,
    text: &mut Vec<u8>,
) -> Result<(), InputFault>
    requires { text.old.items ≡ [] }
    ensures bytes { OnOk result (Consumes (S.rest source.old) (S.rest source.new) text.new.items) }
    ensures whole { OnOk result ((limit < length text.new.items) ⊎ IsAtEnd (S.rest source.new)) }
    ensures cause { InputCause (S.faults source.old) (S.faults source.new) result }
{
    let mut buffer = [0u8; PIECE];
    'pieces: while text.len() <= limit {
        match read_piece(source, &mut buffer, text) {
            Ok(0) => return Ok(()),
            Ok(_) => {}
            Err(fault) => return Err(fault),
        }
    }
    Ok(())
}

// How many bytes one read asks for.
const PIECE: usize = 16_384;

// Appends what one read gives, and says how many bytes these are.
fn read_piece<S: Source>(
    source: &mut S,
    buffer: &mut [u8],
    text: &mut Vec<u8>,
) -> Result<usize, InputFault>
    requires { 0 < length buffer.old }
    ensures bytes { IfOk result (Adds (S.rest source.old) (S.rest source.new) text.old.items text.new.items) }
    ensures end { IfOk result (λ n. n ≡ 0 → IsAtEnd (S.rest source.new)) }
    ensures cause { InputCause (S.faults source.old) (S.faults source.new) result }
{
    match source.read(buffer) {
        Ok(count) => {
            let (piece, _) = buffer.split_at(count);
            text.extend_from_slice(piece)?;
            Ok(count)
        }
        Err(_) => Err(InputFault::Failed),
    }
}
