//! Reading a list.
ghost use Rattle.std.specs.Prelude.{◌≡◌, ◌≤◌, None, Some, length, IfOk, IfErr, MatchOption};
ghost use Rattle.sgm_text.specs.Words.{words_of};
ghost use Rattle.sgm_list.specs.Entries.{entries_of, entry_in, entry_of};
ghost use Rattle.sgm_list.specs.Faults.{list_fault, IsFault};

use crate::clash::first_clash;
use crate::count::count_lines;
use crate::{Entry, ListError, ListFault, MAX_ENTRIES};
use sgm_base::MAX_LIST_BYTES;
use sgm_text::{split_line, split_word};
use std::alloc::{AllocError, Global};

/// The entries of a list of at most [`MAX_LIST_BYTES`] bytes, in order, or its first fault, which
/// is never `TooLong`. Lines end at LF or at the end of the text, and words are the longest runs of
/// bytes other than space, TAB and CR. A line without words is passed over; every other has four,
/// LEFT RIGHT CALIB OUT, where a CALIB of `-` is none. `list` is the name of the list itself.
/// Memory is taken for the entries alone, once there are known to be at most [`MAX_ENTRIES`], and
/// to find those that clash.
#[tactic(auto, unfolding(crate::specs::Faults::list_fault))]
pub fn read_list(alloc: Global, bytes: &[u8], list: &str) -> Result<Vec<Entry>, ListError>
    requires { length bytes.now ≤ MAX_LIST_BYTES }
    ensures sound { IfOk result (λ _. list_fault list.now bytes.now ≡ None) }
    ensures entries { IfOk result (λ entries. entries.items ≡ entries_of bytes.now) }
    ensures fault { IfErr result (IsFault (list_fault list.now bytes.now)) }
{
    let Ok(text) = str::from_utf8(bytes) else {
        return Err(ListError::Fault(ListFault::NotText));
    };
    let count = match count_lines(text, 4) {
        Ok(count) => count,
        Err(number) => return Err(ListError::Fault(ListFault::Line { number })),
    };
    if count > MAX_ENTRIES {
        return Err(ListError::Fault(ListFault::TooMany { entries: count }));
    }
    let entries = make_entries(alloc, text)?;
    match first_clash(alloc, &entries, list)? {
        Some(entry) => Err(ListError::Fault(ListFault::Clash { entry })),
        None => Ok(entries),
    }
}

/// The entries of a text.
fn make_entries(alloc: Global, text: &str) -> Result<Vec<Entry>, AllocError>
    ensures { IfOk result (λ entries. entries.items ≡ entries_of text.now) }
{
    let mut entries = Vec::new(alloc);
    let mut left = Some(text);
    while let Some(rest) = left {
        let (line, behind) = split_line(rest);
        if let Some(words) = four_words(line) {
            entries.push(make_entry(alloc, words)?)?;
        }
        left = behind;
    }
    Ok(entries)
}

/// The words of a line of four.
#[derive(Clone, Copy)]
struct FourWords<'a> {
    left: &'a str,
    right: &'a str,
    calib: &'a str,
    out: &'a str,
}

/// The words of a line, if there are four.
fn four_words(line: &str) -> Option<FourWords<'_>>
    ensures { MatchOption result (entry_in (words_of line.now) ≡ None) (λ w.
        entry_in (words_of line.now)
        ≡ Some (entry_of w.left.now w.right.now w.calib.now w.out.now)) }
{
    let (left, rest) = split_word(line)?;
    let (right, rest) = split_word(rest)?;
    let (calib, rest) = split_word(rest)?;
    let (out, rest) = split_word(rest)?;
    if split_word(rest).is_some() {
        return None;
    }
    Some(FourWords {
        left,
        right,
        calib,
        out,
    })
}

/// The entry of four words.
fn make_entry(alloc: Global, words: FourWords<'_>) -> Result<Entry, AllocError>
    ensures { IfOk result (λ entry.
        entry ≡ entry_of words.entry.left.now words.entry.right.now words.entry.calib.now
        words.entry.out.now) }
{
    let calib = if words.calib == "-" {
        None
    } else {
        Some(String::from_str(alloc, words.calib)?)
    };
    Ok(Entry {
        left: String::from_str(alloc, words.left)?,
        right: String::from_str(alloc, words.right)?,
        calib,
        out: String::from_str(alloc, words.out)?,
    })
}
