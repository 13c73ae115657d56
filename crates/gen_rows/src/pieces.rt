//! What a text comes to, as a whole and piece by piece.
ghost use Rattle.std.specs.Prelude.{◌≤◌};
ghost use Rattle.text_model.specs.declared.limits.TheConstants.{MOST_EVENTS};

use crate::case::Case;
use hive_gen::Generator;
use std::alloc::{AllocError, Global};

/// The pieces of a text: how many, how long, and the digest (FNV-1a of 64 bits) of all their bytes.
#[derive(Clone, Copy, Debug, PartialEq, Eq)]
pub(crate) struct Pieces {
    count: usize,
    pub(crate) bytes: usize,
    longest: usize,
    pub(crate) digest: u64,
}

impl Pieces {
    pub(crate) fn new() -> Pieces {
        Pieces {
            count: 0,
            bytes: 0,
            longest: 0,
            digest: 0xcbf2_9ce4_8422_2325,
        }
    }

    pub(crate) fn add(&mut self, piece: &[u8]) {
        self.count = self.count.saturating_add(1);
        self.bytes = self.bytes.saturating_add(piece.len());
        self.longest = self.longest.max(piece.len());
        for byte in piece {
            self.digest = (self.digest ^ u64::from(*byte)).wrapping_mul(0x0100_0000_01b3);
        }
    }
}

/// The size, the digest and the last line of the case's text, and its pieces, where they make the same text.
pub(crate) fn size_line(alloc: Global, case: Case, text: &[u8]) -> Result<String, AllocError>
    requires { case.events ≤ MOST_EVENTS }
{
    let mut whole = Pieces::new();
    whole.add(text);
    let pieces = pieces_of(alloc, case.start, case.events)?;
    if pieces.digest != whole.digest {
        return format!(in alloc; "other pieces\n");
    }
    let last = last_line(alloc, text)?;
    let (bytes, digest) = (whole.bytes, whole.digest);
    let (count, longest) = (pieces.count, pieces.longest);
    format!(in alloc;
        "{bytes} bytes, digest {digest}, in {count} of at most {longest}, up to {last}\n"
    )
}

fn pieces_of(alloc: Global, start: u64, events: u32) -> Result<Pieces, AllocError>
    requires { events ≤ MOST_EVENTS }
{
    let mut generator = Generator::new(start, events);
    let mut pieces = Pieces::new();
    let mut piece = Vec::new(alloc);
    while !generator.is_end() {
        piece.clear();
        generator.push_piece(&mut piece)?;
        pieces.add(piece.as_slice());
    }
    Ok(pieces)
}

fn last_line(alloc: Global, text: &[u8]) -> Result<String, AllocError> {
    let text = String::from_utf8_lossy(alloc, text)?;
    let lines = text.as_str().trim_end();
    let (_, last) = lines.rsplit_once('\n').unwrap_or(("", lines));
    String::from_str(alloc, last)
}
