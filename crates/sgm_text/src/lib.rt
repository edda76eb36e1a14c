//! Texts: the lines and words of one, a line that is put together on the stack, and what is added
//! at the end of one.
#![tactic(auto)]

mod append;
mod line;
mod words;

pub use append::append_number;
pub use line::{Line, MAX_DIGITS, MAX_LINE};
pub use words::{count_words, split_line, split_word, split_word_bytes};
