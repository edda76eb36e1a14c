//! Reading a list of names, one on a line.
ghost use Rattle.std.specs.Prelude.{◌≡◌, ◌≤◌, ◌||◌, None, Some, map, length, string_bytes, IfOk};
ghost use Rattle.std.specs.Prelude.{MatchOption};
ghost use Rattle.std.specs.List.{position_from};
ghost use Rattle.std.specs.Str.{bytes_eq};
ghost use Rattle.sgm_list.specs.Names.{Gives, fault_of_count, is_written, name_in, names_in};
ghost use Rattle.sgm_list.specs.Names.{names_reading};
ghost use Rattle.sgm_text.specs.Words.{words_of};
ghost use Rattle.sgm_list.specs.declared.names.NamesError.TheVariants.{NoMemory};

use crate::MAX_ENTRIES;
use crate::clash::is_joined;
use crate::count::count_lines;
use sgm_text::{split_line, split_word};
use std::alloc::{AllocError, Global};

/// What is wrong with a list of names. Of several faults the one that is listed first.
#[derive(Clone, Copy, PartialEq, Eq)]
pub enum NamesFault {
    /// The bytes aren't UTF-8.
    NotText,
    /// The first line that has more than one word. Lines count from 1.
    Line { number: usize },
    /// There is no name.
    NoEntries,
    /// There are more names than [`crate::MAX_ENTRIES`].
    TooMany,
    /// The first name that is that of an output. Names count from 0.
    Output { entry: usize },
}

/// Why a list of names was not read.
#[derive(Clone, Copy, PartialEq, Eq)]
pub enum NamesError {
    Fault(NamesFault),
    /// Memory ran out.
    NoMemory,
}

impl From<AllocError> for NamesError {
    ghost from_gives = { λ _ error. error ≡ NoMemory };

    fn from(_error: AllocError) -> NamesError {
        NamesError::NoMemory
    }
}

/// The names of a list, in order, or its first fault. Lines end at LF or at the end of the text,
/// and words are the longest runs of bytes other than space, TAB and CR. A line without words is
/// passed over; every other has one, a name. No name is that of a file that a merge with this OUT
/// writes, OUT.asc or OUT.csv; a name may stand twice. `out` is OUT without an ending. How long the
/// list is isn't judged here. Memory is taken for the names alone, once there are known to be at
/// most [`MAX_ENTRIES`].
pub fn read_names(alloc: Global, bytes: &[u8], out: &str) -> Result<Vec<String>, NamesError>
    ensures names { Gives (names_reading out.now bytes.now) result }
    ensures few { IfOk result (λ names. length names.items ≤ MAX_ENTRIES) }
{
    let Ok(text) = str::from_utf8(bytes) else {
        return Err(NamesError::Fault(NamesFault::NotText));
    };
    let count = match count_lines(text, 1) {
        Ok(count) => count,
        Err(number) => return Err(NamesError::Fault(NamesFault::Line { number })),
    };
    if let Some(fault) = count_fault(count) {
        return Err(NamesError::Fault(fault));
    }
    let names = make_names(alloc, text)?;
    match first_written(&names, out) {
        Some(entry) => Err(NamesError::Fault(NamesFault::Output { entry })),
        None => Ok(names),
    }
}

/// What is wrong with so many names.
fn count_fault(count: usize) -> Option<NamesFault>
    ensures { result ≡ fault_of_count count }
{
    if count == 0 {
        Some(NamesFault::NoEntries)
    } else if count > MAX_ENTRIES {
        Some(NamesFault::TooMany)
    } else {
        None
    }
}

/// The names of a text.
fn make_names(alloc: Global, text: &str) -> Result<Vec<String>, AllocError>
    ensures { IfOk result (λ names. map string_bytes names.items ≡ names_in text.now) }
{
    let mut names = Vec::new(alloc);
    let mut left = Some(text);
    while let Some(rest) = left {
        let (line, behind) = split_line(rest);
        if let Some(name) = one_word(line) {
            names.push(String::from_str(alloc, name)?)?;
        }
        left = behind;
    }
    Ok(names)
}

/// The word of a line, if there is one alone.
fn one_word(line: &str) -> Option<&str>
    ensures { MatchOption result (name_in (words_of line.now) ≡ None) (λ name.
        name_in (words_of line.now) ≡ Some name.now) }
{
    let (name, rest) = split_word(line)?;
    if split_word(rest).is_some() {
        return None;
    }
    Some(name)
}

/// Whether a name is that of a file that a merge with this OUT writes.
fn is_written(out: &str, name: &str) -> bool
    ensures { result ≡ is_written out.now name.now }
{
    let out = out.as_bytes();
    let name = name.as_bytes();
    is_joined(name, out, b".asc") || is_joined(name, out, b".csv")
}

/// The first name that is.
fn first_written(names: &[String], out: &str) -> Option<usize>
    ensures { result ≡ position_from (is_written out.now) 0 (map string_bytes names.now) }
{
    names.iter().position(|name| is_written(out, name.as_str()))
}
