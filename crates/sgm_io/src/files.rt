ghost use Rattle.std.specs.Prelude.{◌≡◌, ◌≢◌, ◌<◌, ◌≤◌, ◌++◌, [], length, map, true, false, Some};
ghost use Rattle.std.specs.Prelude.{IsTrue, IfOk, OnOk, OnErr, string_bytes, option_map};
ghost use Rattle.sgm_io.specs.Held.{Held, NamedBytes, AreBytes, put, put_all, extend, no_files};
ghost use Rattle.sgm_io.specs.Names.{is_among};
ghost use Rattle.sgm_io.specs.Unfinished.{no_names, with_name, without_name};
ghost use Rattle.sgm_io.specs.Fetch.{Fetches};
ghost use Rattle.sgm_io.specs.Keep.{name_of};
ghost use Rattle.sgm_io.specs.Filed.{HaveBytes, named_bytes, last_name, current_of};

use crate::FetchError;
use crate::unfinished::Unfinished;
use std::alloc::{AllocError, Global};
use std::marker::Model;

// A name and the bytes under it.
#[derive(Drop)]
pub(crate) struct NamedFile {
    name: String,
    bytes: Vec<u8>,
}

impl Model for NamedFile {
    ghost Value = { NamedBytes };

    ghost view = { λ f. record { name = string_bytes f.name; bytes = f.bytes.items } };
}

impl NamedFile {
    fn make(name: String, bytes: Vec<u8>) -> NamedFile
        ensures parts { result ≡ record { name = string_bytes name; bytes = bytes.items } }
        ensures bytes { AreBytes result.bytes }
    {
        NamedFile { name, bytes }
    }

    pub(crate) fn name(&self) -> &str
        ensures { result.now ≡ self.now.name }
    {
        self.name.as_str()
    }

    pub(crate) fn bytes(&self) -> &[u8]
        ensures { result.now ≡ self.now.bytes }
    {
        &self.bytes
    }

    // Takes the whole piece, or nothing where there is no memory for it.
    fn grow(&mut self, piece: &[u8]) -> Result<(), AllocError>
        ensures ok { OnOk result
            (self.new ≡ record { name = self.old.name; bytes = self.old.bytes ++ piece.now }) }
        ensures err { OnErr result (self.new ≡ self.old) }
    {
        self.bytes.extend_from_slice(piece)
    }
}

// The files of a shelf in memory. Of files of one name the last counts, and the last of all may be
// being written.
#[derive(Drop)]
pub(crate) struct Files {
    alloc: Global,
    files: Vec<NamedFile>,
    is_open: bool,
    unfinished: Unfinished,
    ghost has_last: { IsTrue is_open → 0 < length files.items },
    ghost have_bytes: { HaveBytes files.items },
}

impl Files {
    pub(crate) fn make(alloc: Global, files: Vec<(String, Vec<u8>)>) -> Result<Files, AllocError>
        ensures files { IfOk result (λ kept. kept.files.items ≡ map named_bytes files.items) }
        ensures closed { IfOk result (λ kept. kept.is_open ≡ false) }
        ensures unfinished { IfOk result (λ kept.
            is_among kept.unfinished.names.items ≡ no_names) }
    {
        let mut kept = Vec::new(alloc);
        for (name, bytes) in files {
            kept.push(NamedFile::make(name, bytes))?;
        }
        Ok(Files {
            alloc,
            files: kept,
            is_open: false,
            unfinished: Unfinished::make(alloc),
        })
    }

    pub(crate) fn is_open(&self) -> bool
        ensures { result ≡ self.now.is_open }
    {
        self.is_open
    }

    // The bytes under a name.
    pub(crate) fn bytes(&self, name: &str) -> Option<&[u8]>
        ensures { option_map (λ bytes. bytes.now) result
            ≡ put_all self.now.files.items no_files name.now }
    {
        bytes_under(&self.files, name)
    }

    // The file being written.
    pub(crate) fn current(&self) -> Option<&NamedFile>
        ensures { option_map (λ file. file.now) result
            ≡ current_of self.now.is_open self.now.files.items }
    {
        if self.is_open {
            self.files.last()
        } else {
            None
        }
    }

    // Puts an empty file at the end, which is now being written.
    pub(crate) fn begin(&mut self, name: &str) -> Result<(), AllocError>
        ensures held { OnOk result ((first : Held) → put_all self.new.files.items first
            ≡ put name.now [] (put_all self.old.files.items first)) }
        ensures open { OnOk result (self.new.is_open ≡ true) }
        ensures writing { OnOk result (last_name self.new.files.items ≡ Some name.now) }
        ensures unfinished { OnOk result (is_among self.new.unfinished.names.items
            ≡ with_name name.now (is_among self.old.unfinished.names.items)) }
        ensures err_files { OnErr result (self.new.files.items ≡ self.old.files.items) }
        ensures err_open { OnErr result (self.new.is_open ≡ self.old.is_open) }
        ensures err_unfinished { OnErr result
            (self.new.unfinished.names.items ≡ self.old.unfinished.names.items) }
    {
        let begun = self.unfinished.reserve(name)?;
        let name = String::from_str(self.alloc, name)?;
        self.files
            .push(NamedFile::make(name, Vec::new(self.alloc)))?;
        self.unfinished.begin(begun);
        self.is_open = true;
        Ok(())
    }

    // Adds a piece to the file being written, or nothing where there is no memory for it.
    pub(crate) fn grow(&mut self, piece: &[u8]) -> Result<(), AllocError>
        requires { IsTrue self.old.is_open }
        ensures ok { OnOk result ((first : Held) → put_all self.new.files.items first
            ≡ extend (name_of (last_name self.old.files.items)) piece.now
            (put_all self.old.files.items first)) }
        ensures err { OnErr result (self.new.files.items ≡ self.old.files.items) }
        ensures name { last_name self.new.files.items ≡ last_name self.old.files.items }
        ensures open { self.new.is_open ≡ self.old.is_open }
        ensures unfinished { self.new.unfinished ≡ self.old.unfinished }
    {
        grow_last(&mut self.files, piece)
    }

    // Finishes the file being written.
    pub(crate) fn finish(&mut self)
        requires { IsTrue self.old.is_open }
        ensures files { self.new.files.items ≡ self.old.files.items }
        ensures closed { self.new.is_open ≡ false }
        ensures unfinished { is_among self.new.unfinished.names.items
            ≡ without_name (name_of (last_name self.old.files.items))
            (is_among self.old.unfinished.names.items) }
    {
        let Some(file) = self.files.last() else {
            unreachable!()
        };
        self.unfinished.finish(file.name());
        self.is_open = false;
    }

    // Leaves the file being written as it is, unfinished.
    pub(crate) fn leave(&mut self)
        ensures files { self.new.files.items ≡ self.old.files.items }
        ensures closed { self.new.is_open ≡ false }
        ensures unfinished { self.new.unfinished ≡ self.old.unfinished }
    {
        self.is_open = false;
    }
}

// The bytes under a name: those that were put there last.
fn bytes_under<'a>(files: &'a [NamedFile], name: &str) -> Option<&'a [u8]>
    ensures { option_map (λ bytes. bytes.now) result ≡ put_all files.now no_files name.now }
{
    let mut found = None;
    for file in files {
        if name == file.name() {
            found = Some(file.bytes());
        }
    }
    found
}

// Adds a piece to the last file.
fn grow_last(files: &mut [NamedFile], piece: &[u8]) -> Result<(), AllocError>
    requires some { 0 < length files.old }
    requires bytes { HaveBytes files.old }
    ensures bytes { HaveBytes files.new }
    ensures ok { OnOk result ((first : Held) → put_all files.new first
        ≡ extend (name_of (last_name files.old)) piece.now (put_all files.old first)) }
    ensures err { OnErr result (files.new ≡ files.old) }
    ensures name { last_name files.new ≡ last_name files.old }
{
    let last = files.len() - 1;
    files[last].grow(piece)
}

// Puts bytes into an empty vector, if there are at most `most`. It never fails but for memory.
pub(crate) fn copy_at_most(bytes: &[u8], most: usize, into: &mut Vec<u8>) -> Result<(), FetchError>
    requires { into.old.items ≡ [] }
    ensures bytes { Fetches most (Some bytes.now) result into.new.items }
    ensures fits { OnOk result (length into.new.items ≤ most) }
    ensures empty { OnErr result (into.new.items ≡ []) }
    ensures never_fails { result ≢ Err FetchError.Failed }
{
    if bytes.len() > most {
        return Err(FetchError::TooLong);
    }
    match into.extend_from_slice(bytes) {
        Ok(()) => Ok(()),
        Err(_) => Err(FetchError::NoMemory),
    }
}
