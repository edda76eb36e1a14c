//! The parts of a case. Every single space parts two words, so two spaces hold an empty word.

use std::alloc::{AllocError, Global};

/// What stands before the first space, and what behind it.
pub fn cut(text: &str) -> (&str, &str) {
    text.split_once(' ').unwrap_or((text, ""))
}

/// The words of a text. No text is no word.
pub fn words_of(alloc: Global, text: &str) -> Result<Vec<String>, AllocError> {
    let mut words = Vec::new(alloc);
    if text.is_empty() {
        return Ok(words);
    }
    for word in text.split(' ') {
        words.push(String::from_str(alloc, word)?)?;
    }
    Ok(words)
}
