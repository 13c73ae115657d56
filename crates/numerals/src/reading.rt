//! Reading a number that is written in decimal, with no zero before other digits.
ghost use Rattle.std.specs.Prelude.{◌≡◌, ◌^◌, ◌<◌, nat_lt, if◌then◌else◌, length, Some, None, true, false};
ghost use Rattle.std.specs.Char.{is_ascii_digit};
ghost use Rattle.std.specs.List.{list_all};
ghost use Rattle.std.specs.Str.Parse.{digits_value};
ghost use Rattle.text_model.specs.Numerals.{canonical_below, is_canonical};

use text_model::bytes::ZERO;

// The greatest number that has room for one more digit.
const MOST_BEFORE_A_DIGIT: u64 = u64::MAX / 10;

/// The number that is written just so. `None` where a byte is no digit or there is none, where a zero stands
/// before other digits, or where the number has over 64 bits.
#[tactic(auto, unfolding(text_model::specs::Numerals::canonical_below, text_model::specs::Numerals::numeral_below))]
pub fn number_of(text: &[u8]) -> Option<u64>
    ensures { result ≡ canonical_below (2 ^ 64) text.now }
{
    if !is_canonical(text) || text.is_empty() || !are_digits(text) {
        return None;
    }
    value_of(text)
}

fn is_canonical(text: &[u8]) -> bool
    ensures { result ≡ is_canonical text.now }
{
    text.len() == 1 || !(text.first() == Some(&ZERO))
}

fn are_digits(text: &[u8]) -> bool
    ensures { result ≡ list_all is_ascii_digit text.now }
{
    text.iter().all(|b| b.is_ascii_digit())
}

fn value_of(digits: &[u8]) -> Option<u64>
    requires { list_all is_ascii_digit digits.now ≡ true }
    ensures { result ≡ (if nat_lt (digits_value 10 digits.now) (2 ^ 64)
        then Some (digits_value 10 digits.now) else None) }
{
    let mut value: u64 = 0;
    for digit in digits {
        if value > MOST_BEFORE_A_DIGIT {
            return None;
        }
        let tens = value * 10;
        let ones = u64::from(*digit - ZERO);
        if ones > u64::MAX - tens {
            return None;
        }
        value = tens + ones;
    }
    Some(value)
}
