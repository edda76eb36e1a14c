//! A line of text, put together without memory.

ghost use Rattle.std.specs.Prelude.{◌≡◌, ◌≤◌, ◌+◌, ◌++◌, [], length, decimal};

use arrayvec::ArrayString;
use itoa::Buffer;
use std::marker::Model;

/// The greatest length of a line, in bytes. It has room for every line.
pub const MAX_LINE: usize = 256;

/// The greatest number of digits of a number in a line.
pub const MAX_DIGITS: usize = 20;

/// A line that is put together, part by part. It takes no memory.
#[derive(Drop)]
pub struct Line {
    text: ArrayString<MAX_LINE>,
}

impl Model for Line {
    ghost use Rattle.std.specs.Prelude.{ℕ, List};

    ghost Value = { List ℕ };

    ghost view = { λ line. line.text.bytes };
}

impl Line {
    /// An empty line.
    pub fn new() -> Line
        ensures { result ≡ [] }
    {
        Line {
            text: ArrayString::new(),
        }
    }

    /// The line with a text more.
    pub fn text(self, part: &str) -> Line
        requires { length self + length part.now ≤ MAX_LINE }
        ensures bytes { result ≡ self ++ part.now }
        ensures len { length result ≡ length self + length part.now }
    {
        let Line { mut text } = self;
        text.push_str(part);
        Line { text }
    }

    /// The line with a number more, in decimal.
    pub fn number(self, number: u64) -> Line
        requires { length self + MAX_DIGITS ≤ MAX_LINE }
        ensures bytes { result ≡ self ++ decimal number }
        ensures len { length result ≤ length self + MAX_DIGITS }
    {
        let mut digits = Buffer::new();
        self.text(digits.format(number))
    }

    pub fn as_bytes(&self) -> &[u8]
        ensures { result.now ≡ self.now }
    {
        self.text.as_str().as_bytes()
    }
}
