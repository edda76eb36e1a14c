//! A shelf that records its calls.

use sgm_io::{FetchError, KeepError, Shelf};
use std::cell::RefCell;
use std::fmt::{Display, Write};

// Notes a call and what it is of. Without memory it is left out, and the calls are then not the
// wanted ones.
fn note(calls: &RefCell<String>, call: &str, of: impl Display + Drop) {
    if let Ok(mut text) = calls.try_borrow_mut() {
        let _ = write!(text, "{call}{of};");
    }
}

/// A shelf that records its calls.
#[derive(Drop)]
pub struct RecordingShelf<'a, S> {
    pub shelf: S,
    pub calls: &'a RefCell<String>,
}

impl<'a, S: Shelf> Shelf for RecordingShelf<'a, S> {
    ghost tells = { S.tells };

    ghost held = { λ r. S.held r.shelf };

    ghost writing = { λ r. S.writing r.shelf };

    ghost unfinished = { λ r. S.unfinished r.shelf };

    ghost read_faults = { λ r. S.read_faults r.shelf };

    ghost write_faults = { λ r. S.write_faults r.shelf };

    ghost writing_is_held = { λ r told. S.writing_is_held r.shelf told };

    ghost held_is_bytes = { λ r told. S.held_is_bytes r.shelf told };

    fn fetch(&mut self, name: &str, most: usize, into: &mut Vec<u8>) -> Result<(), FetchError> {
        note(self.calls, "fetch ", name);
        self.shelf.fetch(name, most, into)
    }

    fn create(&mut self, name: &str) -> Result<(), KeepError> {
        note(self.calls, "create ", name);
        self.shelf.create(name)
    }

    fn append(&mut self, piece: &[u8]) -> Result<usize, KeepError> {
        note(self.calls, "append ", piece.len());
        self.shelf.append(piece)
    }

    fn finish(&mut self) -> Result<(), KeepError> {
        note(self.calls, "finish", "");
        self.shelf.finish()
    }

    fn is_writing(&self) -> bool {
        self.shelf.is_writing()
    }
}
