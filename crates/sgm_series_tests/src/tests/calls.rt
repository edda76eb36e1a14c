//! A series makes exactly the calls on its shelf that it needs, one after the other, which no
//! clause can say.

use super::fixtures::{files_with, words_of};
use sgm_io::{MemoryShelf, MemorySink, Trip};
use sgm_recorders::RecordingShelf;
use sgm_series::run_series;
use sgm_work::OpenGate;
use std::alloc::{AllocError, Global};
use std::cell::RefCell;
use std::sync::Wait;
use std::test::Fail;
use std::thread::Threads;

/// An entry with a calibration, and a plain one.
const LIST: &[u8] = b"l.pgm r.pgm c.json o\nr.pgm l.pgm - p\n";

/// A shelf with the worked example and this list, on which the fetch of this name, if it is one,
/// fails.
fn shelf_of(alloc: Global, name: &str) -> Result<MemoryShelf, AllocError> {
    let mut trips = Vec::new(alloc);
    if !name.is_empty() {
        let name = String::from_str(alloc, name)?;
        trips.push(Trip::Fetch { name })?;
    }
    MemoryShelf::make(alloc, files_with(alloc, LIST)?, trips)
}

/// Notes the calls of the series over such a shelf.
fn note_calls<R: Threads + Wait + Sync>(
    rt: &R,
    alloc: Global,
    name: &str,
    calls: &RefCell<String>,
) -> Result<(), AllocError> {
    let mut shelf = RecordingShelf {
        shelf: shelf_of(alloc, name)?,
        calls,
    };
    let mut out = MemorySink::make(alloc, 4096, None)?;
    let mut err = MemorySink::make(alloc, 4096, None)?;
    let words = words_of(alloc, "list")?;
    run_series(rt, alloc, &words, &mut shelf, &mut out, &mut err, &OpenGate);
    Ok(())
}

/// Whether the series makes these calls over such a shelf.
fn makes<R: Threads + Wait + Sync>(
    rt: &R,
    alloc: Global,
    name: &str,
    wanted: &str,
) -> Result<bool, Fail> {
    let calls = RefCell::new(String::new(alloc));
    note_calls(rt, alloc, name, &calls)?;
    Ok(calls.into_inner().as_str() == wanted)
}

/// The file that can't be read, if there is one, and the calls.
const CALLS: [(&str, &str); 4] = [
    (
        "",
        "fetch list;fetch l.pgm;fetch r.pgm;fetch c.json;fetch r.pgm;fetch l.pgm;create o.pgm;append 43;finish;create o.asc;append 176;finish;create o.csv;append 92;finish;create p.pgm;append 43;finish;",
    ),
    ("list", "fetch list;"),
    ("l.pgm", "fetch list;fetch l.pgm;"),
    ("c.json", "fetch list;fetch l.pgm;fetch r.pgm;fetch c.json;"),
];

#[test]
fn each_call_comes_once_up_to_the_first_that_fails(rt: HostRuntime) -> Result<(), Fail> {
    for (name, calls) in &CALLS {
        assert!(rt; makes(&rt, rt.alloc(), name, calls)?, "{name}");
    }
    Ok(())
}
