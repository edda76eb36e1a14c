//! What a run calls once a write failed: nothing more on its shelf, which no clause can say. Each
//! device here fails once, so that whatever is tried again succeeds and is seen.

use super::ended::run_line;
use super::fixtures::example;
use sgm_io::{MemoryShelf, MemorySink, Trip};
use sgm_recorders::RecordingShelf;
use sgm_work::OpenGate;
use std::alloc::{AllocError, Global};
use std::cell::RefCell;
use std::test::Fail;
use std::thread::Threads;

/// Runs a line over the worked example, on a shelf with these trips that notes its calls, with this
/// standard output.
fn run_noted<R: Threads + Sync>(
    rt: &R,
    alloc: Global,
    line: &str,
    trips: Vec<Trip>,
    out: &mut MemorySink,
    calls: &RefCell<String>,
) -> Result<u8, AllocError> {
    let shelf = MemoryShelf::make(alloc, example(alloc)?, trips)?;
    let mut shelf = RecordingShelf { shelf, calls };
    let mut err = MemorySink::make(alloc, 4096, None)?;
    run_line(rt, alloc, line, &mut shelf, out, &mut err, &OpenGate)
}

/// Whether such a run has this status, these calls, and this on standard output, which fails where
/// `stop` is.
fn stops<R: Threads + Sync>(
    rt: &R,
    alloc: Global,
    line: &str,
    trips: Vec<Trip>,
    stop: Option<usize>,
    (status, wanted, taken): (u8, &str, &[u8]),
) -> Result<bool, Fail> {
    let calls = RefCell::new(String::new(alloc));
    let mut out = MemorySink::make(alloc, 4096, stop)?;
    let found = run_noted(rt, alloc, line, trips, &mut out, &calls)?;
    let made = calls.into_inner();
    Ok(found == status && made.as_str() == wanted && out.taken() == taken)
}

const MATCH: &str = "match l.pgm r.pgm c.json o";

const AT_THE_DISPARITIES: &str = "fetch l.pgm;fetch r.pgm;fetch c.json;create o.pgm;";

// The append that would reach beyond 47 bytes takes these, and the next fails.
const IN_THE_HEIGHTS: &str =
    "fetch l.pgm;fetch r.pgm;fetch c.json;create o.pgm;append 43;finish;create o.asc;append 176;append 129;";

const AFTER_THE_REPORT: &str =
    "fetch l.pgm;fetch r.pgm;fetch c.json;create o.pgm;append 43;finish;create o.asc;append 176;finish;create o.csv;append 92;finish;";

#[test]
fn a_failed_write_is_the_last_call(rt: HostRuntime) -> Result<(), Fail> {
    let alloc = rt.alloc();
    let name = String::from_str(alloc, "o.pgm")?;
    let trips = vec![in alloc; Trip::Create { name }]?;
    let end = (5, AT_THE_DISPARITIES, b"".as_slice());
    assert!(rt; stops(&rt, alloc, MATCH, trips, None, end)?);

    let name = String::from_str(alloc, "o.asc")?;
    let trips = vec![in alloc; Trip::AppendAt { name, length: 47 }]?;
    let end = (5, IN_THE_HEIGHTS, b"".as_slice());
    assert!(rt; stops(&rt, alloc, MATCH, trips, None, end)?);

    let name = String::from_str(alloc, "o.csv")?;
    let trips = vec![in alloc; Trip::Finish { name }]?;
    let end = (5, AFTER_THE_REPORT, b"".as_slice());
    assert!(rt; stops(&rt, alloc, MATCH, trips, None, end)?);
    Ok(())
}

#[test]
fn a_summary_that_stops_is_left_so(rt: HostRuntime) -> Result<(), Fail> {
    let end = (5, AFTER_THE_REPORT, b"valid ".as_slice());
    let trips = Vec::new(rt.alloc());
    assert!(rt; stops(&rt, rt.alloc(), MATCH, trips, Some(6), end)?);
    Ok(())
}

#[test]
fn refused_words_call_nothing(rt: HostRuntime) -> Result<(), Fail> {
    let end = (2, "", b"".as_slice());
    let trips = Vec::new(rt.alloc());
    assert!(rt; stops(&rt, rt.alloc(), "match l.pgm r.pgm", trips, None, end)?);
    Ok(())
}
