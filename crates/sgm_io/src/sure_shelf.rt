ghost use Rattle.std.specs.Prelude.{◌≡◌, true, IfOk, None, map};

use crate::files::{Files, copy_at_most};
use crate::{FetchError, KeepError, Shelf};
use std::alloc::{AllocError, Global};

/// A shelf in memory that never fails: a name that it wasn't given holds no bytes. It tells what it
/// holds, and its counts are always 0.
#[derive(Drop)]
pub struct SureShelf {
    files: Files,
}

impl SureShelf {
    ghost use Rattle.sgm_io.specs.Filed.{named_bytes};
    ghost use Rattle.sgm_io.specs.Held.{empty_files, put_all};
    ghost use Rattle.sgm_io.specs.SureShelf.{sure_held, sure_writing, sure_unfinished};
    ghost use Rattle.sgm_io.specs.Unfinished.{no_names};

    /// A shelf that holds these files. Where two have one name the later counts.
    pub fn make(alloc: Global, files: Vec<(String, Vec<u8>)>) -> Result<SureShelf, AllocError>
        ensures held { IfOk result (λ shelf.
            sure_held shelf ≡ put_all (map named_bytes files.items) empty_files) }
        ensures writing { IfOk result (λ shelf. sure_writing shelf ≡ None) }
        ensures unfinished { IfOk result (λ shelf. sure_unfinished shelf ≡ no_names) }
    {
        let files = Files::make(alloc, files)?;
        Ok(SureShelf { files })
    }
}

impl Shelf for SureShelf {
    ghost use Rattle.sgm_io.specs.Bytes.{all_names_hold_bytes};
    ghost use Rattle.sgm_io.specs.Counts.{no_faults};
    ghost use Rattle.sgm_io.specs.SureShelf.{sure_held, sure_writing, sure_unfinished};
    ghost use Rattle.sgm_io.specs.Writing.{writing_held};

    ghost tells = { true };

    ghost held = { sure_held };

    ghost writing = { sure_writing };

    ghost unfinished = { sure_unfinished };

    ghost read_faults = { λ shelf. no_faults };

    ghost write_faults = { λ shelf. no_faults };

    ghost writing_is_held = { λ shelf told name is.
        writing_held shelf.files.is_open shelf.files.files.items _ name is };

    ghost held_is_bytes = { λ shelf told.
        all_names_hold_bytes shelf.files.files.items shelf.files.have_bytes };

    fn fetch(&mut self, name: &str, most: usize, into: &mut Vec<u8>) -> Result<(), FetchError> {
        match self.files.bytes(name) {
            Some(bytes) => copy_at_most(bytes, most, into),
            None => Ok(()),
        }
    }

    fn create(&mut self, name: &str) -> Result<(), KeepError> {
        match self.files.begin(name) {
            Ok(()) => Ok(()),
            Err(_) => Err(KeepError::NoMemory),
        }
    }

    fn append(&mut self, piece: &[u8]) -> Result<usize, KeepError> {
        match self.files.grow(piece) {
            Ok(()) => Ok(piece.len()),
            Err(_) => Err(KeepError::NoMemory),
        }
    }

    fn finish(&mut self) -> Result<(), KeepError> {
        self.files.finish();
        Ok(())
    }

    fn is_writing(&self) -> bool {
        self.files.is_open()
    }
}
