//! Lists and their first faults.

use sgm_base::MAX_LIST_BYTES;
use sgm_list::{Entry, ListError, ListFault, fault_line, read_list};
use std::alloc::{AllocError, Global};
use std::test::Fail;

/// The first fault of a list under the name `list`; None where it has none.
fn fault_of(alloc: Global, bytes: &[u8], list: &str) -> Result<Option<ListFault>, AllocError> {
    if bytes.len() > MAX_LIST_BYTES {
        return Ok(Some(ListFault::TooLong));
    }
    match read_list(alloc, bytes, list) {
        Ok(_) => Ok(None),
        Err(ListError::Fault(fault)) => Ok(Some(fault)),
        Err(ListError::NoMemory) => Err(AllocError),
    }
}

/// Whether the entry has these four words, the third of them where it isn't plain.
fn has_words(entry: &Entry, left: &str, right: &str, calib: Option<&str>, out: &str) -> bool {
    entry.left.as_str() == left
        && entry.right.as_str() == right
        && entry.calib.as_deref() == calib
        && entry.out.as_str() == out
}

/// Whether these are the two entries of the text below.
fn are_entries(entries: &[Entry]) -> bool {
    let [first, second] = entries else {
        return false;
    };
    has_words(first, "l.pgm", "r.pgm", None, "o1")
        && has_words(second, "l.pgm", "r\u{e9}.pgm", Some("c.json"), "o\u{c}2")
}

#[test]
fn lines_with_four_words_are_entries(rt: HostRuntime) -> Result<(), Fail> {
    let text = "l.pgm r.pgm - o1\r\n\n \t\r\n\tl.pgm  r\u{e9}.pgm\tc.json  o\u{c}2";
    let list = read_list(rt.alloc(), text.as_bytes(), "list");
    assert!(rt; are_entries(&list.ok().ok_or("a list")?));
    Ok(())
}

/// Lists and their first faults, or None.
const FAULTS: [(&[u8], Option<ListFault>); 7] = [
    (b"", None),
    (b"a b -\n\xff", Some(ListFault::NotText)),
    (
        b"l.pgm r.pgm c.json o\nl.pgm o.pgm - p\n",
        Some(ListFault::Clash { entry: 1 }),
    ),
    (
        b"l.pgm r.pgm c.json o\nl.pgm r.pgm p\n",
        Some(ListFault::Line { number: 2 }),
    ),
    (
        b"a b - o\n\nc d - o\ne f - o",
        Some(ListFault::Clash { entry: 1 }),
    ),
    (
        b"a b p.asc o\nc d - p\n",
        Some(ListFault::Clash { entry: 0 }),
    ),
    // An output of the second entry is the list itself.
    (b"a b - p\na b - list", Some(ListFault::Clash { entry: 1 })),
];

#[test]
fn each_fault_is_the_first_that_stands(rt: HostRuntime) -> Result<(), Fail> {
    for (bytes, fault) in &FAULTS {
        assert!(rt; fault_of(rt.alloc(), bytes, "list.csv")? == *fault);
    }
    Ok(())
}

/// A list of so many entries.
fn list_of(alloc: Global, entries: u32) -> Result<String, AllocError> {
    let mut text = String::new(alloc);
    for entry in 0..entries {
        write!(text, "l{entry}.pgm r{entry}.pgm - o{entry}\n")?;
    }
    Ok(text)
}

/// The first fault of a list of so many entries.
fn fault_of_entries(alloc: Global, entries: u32) -> Result<Option<ListFault>, AllocError> {
    let text = list_of(alloc, entries)?;
    fault_of(alloc, text.as_bytes(), "list.txt")
}

#[test]
fn there_are_at_most_a_thousand_entries(rt: HostRuntime) -> Result<(), Fail> {
    let alloc = rt.alloc();
    assert!(rt; fault_of_entries(alloc, 1000)? == None);
    let fault = Some(ListFault::TooMany { entries: 1001 });
    assert!(rt; fault_of_entries(alloc, 1001)? == fault);
    Ok(())
}

#[test]
fn each_fault_has_its_line(rt: HostRuntime) {
    for (fault, line) in &[
        (ListFault::TooLong, "sgm_series: list is too long\n"),
        (ListFault::NotText, "sgm_series: list is not text\n"),
        (
            ListFault::Line { number: 2 },
            "sgm_series: line 2 does not have four words\n",
        ),
        (
            ListFault::TooMany { entries: 1001 },
            "sgm_series: too many entries\n",
        ),
        (
            ListFault::Clash { entry: 1 },
            "sgm_series: entry 1 clashes\n",
        ),
    ] {
        assert!(rt; fault_line(*fault).as_bytes() == line.as_bytes());
    }
}
