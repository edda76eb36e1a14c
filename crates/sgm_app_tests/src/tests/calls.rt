//! A run makes exactly the calls on its shelf that it needs, one after the other, which no clause
//! can say.

use super::ended::run_line;
use super::fixtures::{HEIGHTS, add, example};
use sgm_io::{MemoryShelf, MemorySink, Shelf, Trip};
use sgm_recorders::RecordingShelf;
use sgm_work::OpenGate;
use std::alloc::{AllocError, Global};
use std::cell::RefCell;
use std::test::Fail;
use std::thread::Threads;

/// The worked example, two grids that are its heights, and a list of them.
fn files(alloc: Global) -> Result<Vec<(String, Vec<u8>)>, AllocError> {
    let mut files = example(alloc)?;
    add(alloc, &mut files, "e.asc", HEIGHTS)?;
    add(alloc, &mut files, "f.asc", HEIGHTS)?;
    add(alloc, &mut files, "list", b"e.asc\nf.asc\n")?;
    Ok(files)
}

/// Runs a line over a shelf.
fn run_over<R: Threads + Sync, S: Shelf>(
    rt: &R,
    alloc: Global,
    line: &str,
    shelf: &mut S,
) -> Result<(), AllocError> {
    let mut out = MemorySink::make(alloc, 4096, None)?;
    let mut err = MemorySink::make(alloc, 4096, None)?;
    run_line(rt, alloc, line, shelf, &mut out, &mut err, &OpenGate)?;
    Ok(())
}

/// No trip, or one of the fetch of this name.
fn trips_of(alloc: Global, name: &str) -> Result<Vec<Trip>, AllocError> {
    let mut trips = Vec::new(alloc);
    if !name.is_empty() {
        let name = String::from_str(alloc, name)?;
        trips.push(Trip::Fetch { name })?;
    }
    Ok(trips)
}

/// Notes the calls that a line makes over a shelf where the fetch of this name, if it is one,
/// fails.
fn note_calls<R: Threads + Sync>(
    rt: &R,
    alloc: Global,
    line: &str,
    name: &str,
    calls: &RefCell<String>,
) -> Result<(), AllocError> {
    let shelf = MemoryShelf::make(alloc, files(alloc)?, trips_of(alloc, name)?)?;
    run_over(rt, alloc, line, &mut RecordingShelf { shelf, calls })
}

/// Whether a line makes these calls over such a shelf.
fn makes<R: Threads + Sync>(
    rt: &R,
    alloc: Global,
    line: &str,
    name: &str,
    wanted: &str,
) -> Result<bool, Fail> {
    let calls = RefCell::new(String::new(alloc));
    note_calls(rt, alloc, line, name, &calls)?;
    Ok(calls.into_inner().as_str() == wanted)
}

const MATCH: &str = "match l.pgm r.pgm c.json o";

const TRACE: &str = "trace l.pgm r.pgm c.json right 2 1 1";

const CHANGE: &str = "change e.asc f.asc o";

const MERGE: &str = "merge list c.json o";

/// Lines of runs that are done, and the calls of each. The nine zeros of the difference have four
/// digits fewer each than the heights, whose text has 176 bytes.
const DONE: [(&str, &str); 4] = [
    (
        MATCH,
        "fetch l.pgm;fetch r.pgm;fetch c.json;create o.pgm;append 43;finish;create o.asc;append 176;finish;create o.csv;append 92;finish;",
    ),
    (TRACE, "fetch l.pgm;fetch r.pgm;fetch c.json;"),
    (
        CHANGE,
        "fetch e.asc;fetch f.asc;create o.asc;append 140;finish;create o.csv;append 42;finish;",
    ),
    (
        MERGE,
        "fetch list;fetch c.json;fetch e.asc;fetch f.asc;create o.asc;append 176;finish;create o.csv;append 92;finish;",
    ),
];

#[test]
fn a_run_that_is_done_makes_each_call_once(rt: HostRuntime) -> Result<(), Fail> {
    for (line, calls) in &DONE {
        assert!(rt; makes(&rt, rt.alloc(), line, "", calls)?, "{line}");
    }
    Ok(())
}

/// Lines, the input that can't be read, and the calls up to it.
const STOPPED: [(&str, &str, &str); 12] = [
    (MATCH, "l.pgm", "fetch l.pgm;"),
    (MATCH, "r.pgm", "fetch l.pgm;fetch r.pgm;"),
    (MATCH, "c.json", "fetch l.pgm;fetch r.pgm;fetch c.json;"),
    (TRACE, "l.pgm", "fetch l.pgm;"),
    (TRACE, "r.pgm", "fetch l.pgm;fetch r.pgm;"),
    (TRACE, "c.json", "fetch l.pgm;fetch r.pgm;fetch c.json;"),
    (CHANGE, "e.asc", "fetch e.asc;"),
    (CHANGE, "f.asc", "fetch e.asc;fetch f.asc;"),
    (MERGE, "list", "fetch list;"),
    (MERGE, "c.json", "fetch list;fetch c.json;"),
    (MERGE, "e.asc", "fetch list;fetch c.json;fetch e.asc;"),
    (
        MERGE,
        "f.asc",
        "fetch list;fetch c.json;fetch e.asc;fetch f.asc;",
    ),
];

#[test]
fn the_first_failed_call_ends_the_run(rt: HostRuntime) -> Result<(), Fail> {
    for (line, name, calls) in &STOPPED {
        assert!(rt;
            makes(&rt, rt.alloc(), line, name, calls)?,
            "{line}, {name}"
        );
    }
    Ok(())
}
