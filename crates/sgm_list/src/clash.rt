//! Entries that would overwrite one another's files.
ghost use Rattle.std.specs.Prelude.{◌≡◌, ◌<◌, ◌++◌, length, IfOk};
ghost use Rattle.std.specs.List.{list_any};
ghost use Rattle.std.specs.Str.{bytes_eq};
ghost use Rattle.sgm_list.specs.Clashes.{clashes, first_clash, is_output, is_output_of, overwrites};
ghost use Rattle.sgm_list.specs.Clashes.{repeats};
ghost use Rattle.sgm_list.specs.Reading.{AreFirsts};

use crate::Entry;
use std::alloc::{AllocError, Global};
use std::collections::BTreeMap;

/// The entries of a list, and by OUT the place of the first one that has it.
#[derive(Drop)]
struct Outs<'a> {
    entries: &'a [Entry],
    firsts: BTreeMap<&'a str, usize>,
    ghost first: { AreFirsts firsts entries.now },
}

impl<'a> Outs<'a> {
    fn of(alloc: Global, entries: &'a [Entry]) -> Result<Outs<'a>, AllocError>
        ensures { IfOk result (λ outs. outs.entries.now ≡ entries.now) }
    {
        let mut firsts = BTreeMap::new(alloc);
        for (place, entry) in entries.iter().enumerate() {
            let out = entry.out.as_str();
            if !firsts.contains_key(out) {
                firsts.insert(out, place)?;
            }
        }
        Ok(Outs { entries, firsts })
    }

    /// Whether one of the entries before a place has this OUT.
    fn repeats(&self, place: usize, out: &str) -> bool
        ensures { result ≡ repeats self.now.entries.now place out.now }
    {
        match self.firsts.get(out) {
            Some(first) => *first < place,
            None => false,
        }
    }

    /// Whether a name is the OUT of an entry and then this ending.
    fn is_ended(&self, name: &str, ending: &str) -> bool
        ensures { result
            ≡ list_any (λ entry. bytes_eq name.now (entry.out ++ ending.now)) self.now.entries.now }
    {
        match name.strip_suffix(ending) {
            Some(out) => self.firsts.contains_key(out),
            None => false,
        }
    }

    /// Whether a name is that of an output of an entry.
    fn is_output(&self, name: &str) -> bool
        ensures { result ≡ is_output self.now.entries.now name.now }
    {
        self.is_ended(name, ".pgm") || self.is_ended(name, ".asc") || self.is_ended(name, ".csv")
    }

    /// Whether an input of an entry is an output of one.
    fn overwrites(&self, entry: &Entry) -> bool
        ensures { result ≡ overwrites self.now.entries.now entry.now }
    {
        if self.is_output(entry.left.as_str()) || self.is_output(entry.right.as_str()) {
            return true;
        }
        match &entry.calib {
            Some(calib) => self.is_output(calib.as_str()),
            None => false,
        }
    }

    /// Whether the entry at a place clashes.
    fn clashes(&self, list: &str, place: usize) -> bool
        requires { place < length self.now.entries.now }
        ensures { result ≡ clashes list.now self.now.entries.now place }
    {
        let entry = &self.entries[place];
        self.repeats(place, entry.out.as_str())
            || self.overwrites(entry)
            || is_output_of(entry, list)
    }
}

/// Whether a name is that of an output of the entry.
fn is_output_of(entry: &Entry, name: &str) -> bool
    ensures { result ≡ is_output_of entry.now name.now }
{
    let out = entry.out.as_bytes();
    let name = name.as_bytes();
    is_joined(name, out, b".pgm") || is_joined(name, out, b".asc") || is_joined(name, out, b".csv")
}

/// Whether the whole is the front and then the back.
pub(crate) fn is_joined(whole: &[u8], front: &[u8], back: &[u8]) -> bool
    ensures { result ≡ bytes_eq whole.now (front.now ++ back.now) }
{
    match whole.strip_prefix(front) {
        Some(rest) => rest == back,
        None => false,
    }
}

/// The first entry that clashes. A name is looked up and not compared with that of every entry.
pub fn first_clash(
    alloc: Global,
    entries: &[Entry],
    list: &str,
) -> Result<Option<usize>, AllocError>
    ensures { IfOk result (λ first. first ≡ first_clash list.now entries.now) }
{
    let outs = Outs::of(alloc, entries)?;
    for place in 0..entries.len() {
        if outs.clashes(list, place) {
            return Ok(Some(place));
        }
    }
    Ok(None)
}
