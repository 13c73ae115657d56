//! Names, and words that a text may be.
ghost use Rattle.std.specs.Prelude.{◌≡◌};
ghost use Rattle.std.specs.List.{list_all};
ghost use Rattle.hive_model.specs.Same.{texts};
ghost use Rattle.text_model.specs.Names.{is_among as is_among_names, is_name as is_name_text};
ghost use Rattle.text_model.specs.Tokens.{is_word as is_word_byte};

use text_model::MOST_NAME_BYTES;
use text_model::bytes::UNDERSCORE;

/// Whether the bytes are a name: a letter and at most 63 letters, digits or `_` behind it.
#[tactic(auto, unfolding(text_model::specs::Names::is_name))]
pub fn is_name(bytes: &[u8]) -> bool
    ensures { result ≡ is_name_text bytes.now }
{
    let Some((first, others)) = bytes.split_first() else {
        return false;
    };
    if !first.is_ascii_alphabetic() {
        return false;
    }
    if !are_words(others) {
        return false;
    }
    bytes.len() <= MOST_NAME_BYTES
}

fn are_words(bytes: &[u8]) -> bool
    ensures { result ≡ list_all is_word_byte bytes.now }
{
    bytes.iter().all(|b| is_word(*b))
}

fn is_word(byte: u8) -> bool
    ensures { result ≡ is_word_byte byte }
{
    byte.is_ascii_alphanumeric() || byte == UNDERSCORE
}

/// Whether the text is one of these words.
pub fn is_among(words: &[&str], text: &str) -> bool
    ensures { result ≡ is_among_names (texts words.now) text.now }
{
    for word in words {
        if text == *word {
            return true;
        }
    }
    false
}
