ghost use Rattle.std.specs.Prelude.{◌≡◌, ◌≤◌, ◌<◌, false, None, IsSome, IfSome, IfNone, IfOk, OnOk};
ghost use Rattle.std.specs.Prelude.{OnErr};
ghost use Rattle.std.specs.Prelude.{length, take};
ghost use Rattle.std.specs.Io.KnownBytes.{Appends, Keeps};
ghost use Rattle.sgm_io.specs.DiskShelf.{told_by, writing_on};
ghost use Rattle.sgm_io.specs.Names.{is_among};

use crate::device::{read_at_most, write_some};
use crate::unfinished::Unfinished;
use crate::{FetchError, KeepError, Shelf};
use std::alloc::Global;
use std::fs;
use std::io::Write;
use std::rt::Files;

// A file that is being written, and its name.
#[derive(Drop)]
struct Open<F> {
    file: F,
    name: String,
}

/// The real files. It tells no bytes. Its one count, of all calls that failed, is both counts of
/// every name. It keeps the names that it began and didn't finish.
#[derive(Drop)]
pub struct DiskShelf<'a, R: Files> {
    rt: &'a R,
    alloc: Global,
    current: Option<Open<R::File>>,
    unfinished: Unfinished,
    faults: u64,
}

impl<'a, R: Files> DiskShelf<'a, R> {
    ghost use Rattle.sgm_io.specs.Counts.{no_faults};
    ghost use Rattle.sgm_io.specs.Unfinished.{no_names};

    /// A shelf of the files that the runtime reaches. None is being written, and nothing has
    /// failed.
    pub fn make(rt: &'a R, alloc: Global) -> DiskShelf<'a, R>
        ensures writing { ⟦<DiskShelf<'a, R> as Shelf>⟧.writing result ≡ None }
        ensures unfinished { ⟦<DiskShelf<'a, R> as Shelf>⟧.unfinished result ≡ no_names }
        ensures reads { ⟦<DiskShelf<'a, R> as Shelf>⟧.read_faults result ≡ no_faults }
        ensures writes { ⟦<DiskShelf<'a, R> as Shelf>⟧.write_faults result ≡ no_faults }
    {
        DiskShelf {
            rt,
            alloc,
            current: None,
            unfinished: Unfinished::make(alloc),
            faults: 0,
        }
    }
}

// The bytes of a file, if there are at most `most`.
fn read_file<R: Files>(
    rt: &R,
    name: &str,
    most: usize,
    into: &mut Vec<u8>,
) -> Result<(), FetchError>
    ensures fits { OnOk result (length into.new.items ≤ most) }
{
    match fs::open(rt, name) {
        Ok(mut file) => read_at_most(&mut file, most, into),
        Err(_) => Err(FetchError::Failed),
    }
}

impl<'a, R: Files> Shelf for DiskShelf<'a, R> {
    ghost use Rattle.sgm_io.specs.Held.{no_files};
    ghost use Rattle.sgm_io.specs.Keep.{name_of, KeepReads, KeepWrites};
    ghost use Rattle.sgm_io.specs.Piece.{TakesSome};

    ghost tells = { false };

    ghost held = { λ shelf. no_files };

    ghost writing = { λ shelf. writing_on shelf.current };

    ghost unfinished = { λ shelf. is_among shelf.unfinished.names.items };

    ghost read_faults = { λ shelf name. shelf.faults };

    ghost write_faults = { λ shelf name. shelf.faults };

    ghost writing_is_held = { λ shelf told name is. Prim.cc };

    ghost held_is_bytes = { λ shelf told name. tt };

    fn fetch(&mut self, name: &str, most: usize, into: &mut Vec<u8>) -> Result<(), FetchError> {
        match read_file(self.rt, name, most, into) {
            Ok(()) => Ok(()),
            Err(FetchError::Failed) => {
                into.clear();
                self.faults = self.faults.saturating_add(1);
                Err(FetchError::Failed)
            }
            Err(error) => {
                into.clear();
                Err(error)
            }
        }
    }

    fn create(&mut self, name: &str) -> Result<(), KeepError> {
        let Ok(kept) = String::from_str(self.alloc, name) else {
            return Err(KeepError::NoMemory);
        };
        let Ok(begun) = self.unfinished.reserve(name) else {
            return Err(KeepError::NoMemory);
        };
        match fs::create(self.rt, name) {
            Ok(file) => {
                self.unfinished.begin(begun);
                self.current = Some(Open { file, name: kept });
                Ok(())
            }
            Err(_) => {
                self.current = None;
                self.faults = self.faults.saturating_add(1);
                Err(KeepError::Failed)
            }
        }
    }

    /// Hands the bytes on to the file. Where that tells its bytes, those of the answer were added,
    /// and none on an error.
    fn append(&mut self, piece: &[u8]) -> Result<usize, KeepError>
        requires { IsSome (writing_on self.old.current) }
        ensures count { TakesSome piece.now result }
        ensures writing { writing_on self.new.current ≡ writing_on self.old.current }
        ensures unfinished { is_among self.new.unfinished.names.items
            ≡ is_among self.old.unfinished.names.items }
        ensures reads { KeepReads result (λ name. self.old.faults) (λ name. self.new.faults) }
        ensures writes { KeepWrites (name_of (writing_on self.old.current)) result
            (λ name. self.old.faults) (λ name. self.new.faults) }

        ensures taken { IfOk result (λ count.
            Appends (told_by ⟦<R::File as Write>⟧.contents self.old.current)
            (told_by ⟦<R::File as Write>⟧.contents self.new.current)
            (take count piece.now)) }
        ensures kept { OnErr result
            (Keeps (told_by ⟦<R::File as Write>⟧.contents self.old.current)
            (told_by ⟦<R::File as Write>⟧.contents self.new.current)) }
    {
        match write_to(&mut self.current, piece) {
            Some(count) => Ok(count),
            None => {
                self.faults = self.faults.saturating_add(1);
                Err(KeepError::Failed)
            }
        }
    }

    fn finish(&mut self) -> Result<(), KeepError> {
        let Some(mut open) = self.current.take() else {
            unreachable!()
        };
        match open.file.flush() {
            Ok(()) => {
                self.unfinished.finish(open.name.as_str());
                Ok(())
            }
            Err(_) => {
                self.faults = self.faults.saturating_add(1);
                Err(KeepError::Failed)
            }
        }
    }

    fn is_writing(&self) -> bool {
        self.current.is_some()
    }
}

// Writes some bytes from the front of the piece to the file.
fn write_to<F: Write>(current: &mut Option<Open<F>>, piece: &[u8]) -> Option<usize>
    requires { IsSome current.old }
    ensures within { IfSome result (λ count. count ≤ length piece.now) }
    ensures some { IfSome result (λ count. 0 < length piece.now → 0 < count) }
    ensures name { writing_on current.new ≡ writing_on current.old }
    // Where the file tells its bytes, these were added, or none.
    ensures taken { IfSome result (λ count.
        Appends (told_by F.contents current.old) (told_by F.contents current.new)
        (take count piece.now)) }
    ensures kept { IfNone result
        (Keeps (told_by F.contents current.old) (told_by F.contents current.new)) }
{
    match current {
        Some(open) => write_some(&mut open.file, piece),
        None => unreachable!(),
    }
}
