//! What the sources, sinks and shelves in memory have in common.
ghost use Rattle.std.specs.Prelude.{◌≡◌, ℕ, ◌+◌, ◌-◌, ◌≤◌, List, [], ◌++◌, min, length, take, drop, option_copied, OnOk, OnErr};
ghost use Rattle.hive_edge.specs.Shelf.{text_of, files_of, Puts};

use crate::ShelfFault;
use hive_model::Text;

/// Copies bytes from `at` on into the front of `buf`, as many as there are, fit, and stand in one piece.
pub fn copy_piece(bytes: &[u8], at: usize, piece: usize, buf: &mut [u8]) -> usize
    requires { at ≤ length bytes.now }
    ensures count { result ≡ min piece (min (length buf.new) (length bytes.now - at)) }
    ensures bytes { drop at bytes.now ≡ take result buf.new ++ drop (at + result) bytes.now }
{
    let count = piece.min(buf.len()).min(bytes.len() - at);
    buf[..count].copy_from_slice(&bytes[at..at + count]);
    count
}

/// The text under a name.
pub fn find_text<'a>(files: &'a [(Text, Vec<u8>)], name: &str) -> Option<&'a [u8]>
    ensures { option_copied result ≡ text_of name.now (files_of files.now) }
{
    for file in files {
        if file.0.as_str() == name {
            return Some(file.1.as_slice());
        }
    }
    None
}

/// Replaces `out` by `text`, where that is within the limit.
pub fn put_text(text: &[u8], limit: usize, out: &mut Vec<u8>) -> Result<(), ShelfFault>
    ensures { Puts text.now limit result out.new.items }
{
    out.clear();
    if text.len() > limit {
        return Err(ShelfFault::Over);
    }
    out.extend_from_slice(text)?;
    Ok(())
}
