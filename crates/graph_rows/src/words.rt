//! Words of a row.
use hive_model::{Many, Text};
use std::alloc::{AllocError, Global};

/// The words of a text, each as often as it says.
pub(crate) fn words_of(alloc: Global, text: &str) -> Result<Vec<Text>, AllocError> {
    let mut words = Vec::new(alloc);
    for word in text.split_whitespace() {
        push_word(alloc, &mut words, word)?;
    }
    Ok(words)
}

fn push_word(alloc: Global, words: &mut Vec<Text>, word: &str) -> Result<(), AllocError> {
    let (name, times) = times_of(word);
    for _time in 0..times {
        words.push(Text::from_str(alloc, name)?)?;
    }
    Ok(())
}

fn times_of(word: &str) -> (&str, u16) {
    match word.split_once('*') {
        Some((name, times)) => (name, times.parse().unwrap_or(0)),
        None => (word, 1),
    }
}

/// The same, as a list.
pub(crate) fn names_of(alloc: Global, text: &str) -> Result<Many<Text>, AllocError> {
    Ok(Many::from_vec(words_of(alloc, text)?))
}
