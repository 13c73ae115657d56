//! What single fields say.
ghost use Rattle.std.specs.Prelude.{◌≡◌, codes};
ghost use Rattle.hive_model.specs.Same.{same_text};
ghost use Rattle.text_model.specs.Report.{fault_word};
ghost use Rattle.text_model.specs.TimelineRead.{clone_of, fault_of, number_of_bits, place_of};
ghost use Rattle.text_model.specs.Timeline.{nothing};

use hive_model::{Fault, Place};
use numerals::number_of;
use text_model::TimelineCause;

/// A ticket, or the place of an event.
pub(crate) fn long_of(text: &[u8]) -> Result<u64, TimelineCause>
    ensures { result ≡ number_of_bits 64 text.now }
{
    match number_of(text) {
        Some(number) => Ok(number),
        None => Err(TimelineCause::Number),
    }
}

/// An algorithm or an output.
pub(crate) fn short_of(text: &[u8]) -> Result<u16, TimelineCause>
    ensures { result ≡ number_of_bits 16 text.now }
{
    match number_of(text) {
        Some(number) => {
            if number < 0x1_0000 {
                Ok(number as u16)
            } else {
                Err(TimelineCause::Number)
            }
        }
        None => Err(TimelineCause::Number),
    }
}

/// A slot, an instance or a worker.
pub(crate) fn byte_of(text: &[u8]) -> Result<u8, TimelineCause>
    ensures { result ≡ number_of_bits 8 text.now }
{
    match number_of(text) {
        Some(number) => {
            if number < 0x100 {
                Ok(number as u8)
            } else {
                Err(TimelineCause::Number)
            }
        }
        None => Err(TimelineCause::Number),
    }
}

/// The instance of a claim, if the algorithm has any.
pub(crate) fn clone_of(text: &[u8]) -> Result<Option<u8>, TimelineCause>
    ensures { result ≡ clone_of text.now }
{
    if same(text, b"-") {
        return Ok(None);
    }
    let number = byte_of(text)?;
    Ok(Some(number))
}

/// Where a fault came up.
pub(crate) fn place_of(text: &[u8]) -> Result<Place, TimelineCause>
    ensures { result ≡ place_of text.now }
{
    if same(text, b"-") {
        return Ok(Place::Filter);
    }
    let number = short_of(text)?;
    Ok(Place::Output(number))
}

/// The fault of a word.
pub(crate) fn fault_of(text: &[u8]) -> Result<Fault, TimelineCause>
    ensures { result ≡ fault_of text.now }
{
    if same(b"overflow", text) {
        Ok(Fault::Overflow)
    } else if same(b"divzero", text) {
        Ok(Fault::DivZero)
    } else if same(b"empty", text) {
        Ok(Fault::Empty)
    } else if same(b"index", text) {
        Ok(Fault::Index)
    } else if same(b"toolong", text) {
        Ok(Fault::TooLong)
    } else {
        Err(TimelineCause::Fields)
    }
}

/// Whether two texts have the same bytes.
pub(crate) fn same(text: &[u8], other: &[u8]) -> bool
    ensures { result ≡ same_text text.now other.now }
{
    text == other
}
