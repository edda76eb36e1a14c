//! Bytes that are written in one line: `\n`, `\r`, `\t`, `\\`, a byte as `\x0f`, and so many copies
//! of a piece as `\*1000:PIECE\.`, where the piece has no copies in it.

use std::alloc::{AllocError, Global};
use std::fmt::Write;

/// What is read next.
#[derive(Clone, Copy)]
enum State {
    /// A byte, or the beginning of an escape.
    Plain,
    /// What follows a backslash.
    Escape,
    /// The first digit of a byte.
    High,
    /// The second digit of a byte, after the first.
    Low(u8),
    /// The digits of a number of copies, or its end.
    Count(u32),
}

/// The bytes so far, and the copies that are asked for of those from `start` on.
#[derive(Drop)]
struct Bytes {
    bytes: Vec<u8>,
    start: usize,
    copies: u32,
}

fn digit(byte: u8) -> u8 {
    match byte {
        b'0'..=b'9' => byte - b'0',
        b'a'..=b'f' => byte - b'a' + 10,
        _ => 0,
    }
}

/// The byte that a backslash and this byte stand for.
fn meant(byte: u8) -> u8 {
    match byte {
        b'n' => b'\n',
        b'r' => b'\r',
        b't' => b'\t',
        _ => byte,
    }
}

impl Bytes {
    /// Repeats the bytes from `start` on.
    fn repeat(&mut self, alloc: Global) -> Result<(), AllocError> {
        let mut piece = Vec::new(alloc);
        piece.extend_from_slice(self.bytes.get(self.start..).unwrap_or(&[]))?;
        for _ in 1..self.copies {
            self.bytes.extend_from_slice(&piece)?;
        }
        Ok(())
    }

    fn escaped(&mut self, alloc: Global, byte: u8) -> Result<State, AllocError> {
        match byte {
            b'x' => return Ok(State::High),
            b'*' => return Ok(State::Count(0)),
            b'.' => self.repeat(alloc)?,
            _ => self.bytes.push(meant(byte))?,
        }
        Ok(State::Plain)
    }

    fn take(&mut self, alloc: Global, state: State, byte: u8) -> Result<State, AllocError> {
        match state {
            State::Plain if byte == b'\\' => Ok(State::Escape),
            State::Plain => {
                self.bytes.push(byte)?;
                Ok(State::Plain)
            }
            State::Escape => self.escaped(alloc, byte),
            State::High => Ok(State::Low(digit(byte))),
            State::Low(high) => {
                self.bytes.push((high & 15) << 4 | digit(byte))?;
                Ok(State::Plain)
            }
            State::Count(count) if byte == b':' => {
                self.start = self.bytes.len();
                self.copies = count;
                Ok(State::Plain)
            }
            State::Count(count) => Ok(State::Count(
                count.saturating_mul(10).saturating_add(digit(byte) as u32),
            )),
        }
    }

    fn take_all(&mut self, alloc: Global, text: &str) -> Result<(), AllocError> {
        let mut state = State::Plain;
        for byte in text.as_bytes() {
            state = self.take(alloc, state, *byte)?;
        }
        Ok(())
    }
}

/// The bytes that a text stands for.
pub fn unescaped(alloc: Global, text: &str) -> Result<Vec<u8>, AllocError> {
    let mut read = Bytes {
        bytes: Vec::new(alloc),
        start: 0,
        copies: 0,
    };
    read.take_all(alloc, text)?;
    let Bytes {
        bytes,
        start: _,
        copies: _,
    } = read;
    Ok(bytes)
}

/// Adds a byte so that it stands in one line.
pub fn push_escaped(text: &mut String, byte: u8) -> Result<(), AllocError> {
    match byte {
        b'\n' => text.push_str("\\n"),
        b'\\' => text.push_str("\\\\"),
        b' '..=b'~' => text.push(byte as char),
        _ => write!(text, "\\x{byte:02x}"),
    }
}
