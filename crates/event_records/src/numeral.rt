//! Numerals of records.
ghost use Rattle.std.specs.Prelude.{◌≡◌, ◌^◌, nat_lt, if◌then◌else◌, Some, None, true, false};
ghost use Rattle.std.specs.Char.{is_ascii_digit};
ghost use Rattle.std.specs.List.{AllPass, list_all};
ghost use Rattle.std.specs.Str.Parse.{digits_value};
ghost use Rattle.text_model.specs.Numerals.{signed, unsigned, with_sign};

use text_model::bytes::{MINUS, ZERO};

// The greatest number that has room for one more digit.
const MOST_BEFORE_A_DIGIT: u64 = u64::MAX / 10;

/// The number that the digits write. `None` where there are none, where a byte isn't one, or where the number
/// has over 64 bits.
#[tactic(auto, unfolding(text_model::specs::Numerals::numeral_below))]
pub(crate) fn unsigned_of(text: &[u8]) -> Option<u64>
    ensures { result ≡ unsigned text.now }
{
    if text.is_empty() || !are_digits(text) {
        return None;
    }
    value_of(text)
}

fn are_digits(text: &[u8]) -> bool
    ensures { result ≡ list_all is_ascii_digit text.now }
{
    text.iter().all(|b| b.is_ascii_digit())
}

fn value_of(digits: &[u8]) -> Option<u64>
    requires { list_all is_ascii_digit digits.now ≡ true }
    ensures { result ≡ (if nat_lt (digits_value 10 digits.now) (2 ^ 64)
        then Some (digits_value 10 digits.now) else None) }
{
    let mut value: u64 = 0;
    for digit in digits {
        if value > MOST_BEFORE_A_DIGIT {
            return None;
        }
        let tens = value * 10;
        let ones = u64::from(*digit - ZERO);
        if ones > u64::MAX - tens {
            return None;
        }
        value = tens + ones;
    }
    Some(value)
}

/// The number of 64 bits with sign that the text writes, if it writes one.
#[tactic(auto, unfolding(text_model::specs::Numerals::signed))]
pub(crate) fn signed_of(text: &[u8]) -> Option<i64>
    ensures { result ≡ signed text.now }
{
    let Some((first, digits)) = text.split_first() else {
        return None;
    };
    if *first == MINUS {
        let Some(number) = unsigned_of(digits) else {
            return None;
        };
        below_zero(number)
    } else {
        let Some(number) = unsigned_of(text) else {
            return None;
        };
        above_zero(number)
    }
}

fn above_zero(number: u64) -> Option<i64>
    ensures { result ≡ with_sign false number }
{
    if number < 0x8000_0000_0000_0000 {
        Some(number as i64)
    } else {
        None
    }
}

fn below_zero(number: u64) -> Option<i64>
    ensures { result ≡ with_sign true number }
{
    if number < 0x8000_0000_0000_0000 {
        Some(-(number as i64))
    } else if number == 0x8000_0000_0000_0000 {
        Some(i64::MIN)
    } else {
        None
    }
}
