//! The generating that is timed.
ghost use Rattle.std.specs.Prelude.{◌≤◌};
ghost use Rattle.text_model.specs.declared.limits.TheConstants.{MOST_EVENTS};

use hive_gen::Generator;
use std::alloc::{AllocError, Global};

/// How many bytes the pieces have together, of which one is held at a time.
pub(crate) fn bytes_in_pieces(alloc: Global, start: u64, events: u32) -> Result<usize, AllocError>
    requires { events ≤ MOST_EVENTS }
{
    let mut generator = Generator::new(start, events);
    let mut piece = Vec::new(alloc);
    let mut bytes: usize = 0;
    while !generator.is_end() {
        piece.clear();
        generator.push_piece(&mut piece)?;
        bytes = bytes.saturating_add(piece.len());
    }
    Ok(bytes)
}
