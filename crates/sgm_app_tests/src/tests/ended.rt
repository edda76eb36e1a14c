//! Runs in memory, and what stands after them.

use super::fixtures::words_of;
use sgm_app::run;
use sgm_io::{MemoryShelf, MemorySink, Shelf};
use sgm_work::{Gate, OpenGate};
use std::alloc::{AllocError, Global};
use std::test::Fail;
use std::thread::Threads;

/// How a run is to end: its status, what the two streams receive, and what o.pgm, o.asc and o.csv
/// hold, where they are there.
#[derive(Clone, Copy)]
pub struct End<'a> {
    pub status: u8,
    pub out: &'a [u8],
    pub err: &'a [u8],
    pub outputs: [Option<&'a [u8]>; 3],
}

/// An end with this status and this line, before anything is written.
pub fn refused(status: u8, err: &str) -> End<'_> {
    End {
        status,
        out: b"",
        err: err.as_bytes(),
        outputs: [None; 3],
    }
}

/// A shelf in memory without trips.
pub fn shelf_of(alloc: Global, files: Vec<(String, Vec<u8>)>) -> Result<MemoryShelf, AllocError> {
    MemoryShelf::make(alloc, files, Vec::new(alloc))
}

/// The status of the run of a line over a shelf and two streams, whose workers pass the gate.
pub fn run_line<R: Threads + Sync, S: Shelf, G: Gate + Sync>(
    rt: &R,
    alloc: Global,
    line: &str,
    shelf: &mut S,
    out: &mut MemorySink,
    err: &mut MemorySink,
    gate: &G,
) -> Result<u8, AllocError> {
    let words = words_of(alloc, line)?;
    Ok(run(rt, alloc, &words, shelf, out, err, gate).status())
}

/// Whether the run of a line over a shelf, whose workers pass the gate, has this status, and the
/// streams receive this.
fn tells<R: Threads + Sync, G: Gate + Sync>(
    rt: &R,
    alloc: Global,
    line: &str,
    shelf: &mut MemoryShelf,
    gate: &G,
    end: End,
) -> Result<bool, AllocError> {
    let mut out = MemorySink::make(alloc, 4096, None)?;
    let mut err = MemorySink::make(alloc, 4096, None)?;
    let status = run_line(rt, alloc, line, shelf, &mut out, &mut err, gate)?;
    Ok(status == end.status && out.taken() == end.out && err.taken() == end.err)
}

/// What the shelf holds under the name.
pub fn held(
    alloc: Global,
    shelf: &mut MemoryShelf,
    name: &str,
) -> Result<Option<Vec<u8>>, AllocError> {
    let mut bytes = Vec::new(alloc);
    match shelf.fetch(name, 1_048_576, &mut bytes) {
        Ok(()) => Ok(Some(bytes)),
        Err(_) => Ok(None),
    }
}

/// Whether the name holds this, or is absent.
fn holds(alloc: Global, shelf: &mut MemoryShelf, name: &str, wanted: Option<&[u8]>) -> bool {
    match held(alloc, shelf, name) {
        Ok(found) => found.as_deref() == wanted,
        Err(_) => false,
    }
}

/// Whether the run of a line over a shelf, whose workers pass the gate, ends so.
pub fn ends_by<R: Threads + Sync, G: Gate + Sync>(
    rt: &R,
    alloc: Global,
    line: &str,
    shelf: &mut MemoryShelf,
    gate: &G,
    end: End,
) -> Result<bool, Fail> {
    let [disparities, heights, report] = end.outputs;
    Ok(
        tells(rt, alloc, line, shelf, gate, end)?
            && holds(alloc, shelf, "o.pgm", disparities)
            && holds(alloc, shelf, "o.asc", heights)
            && holds(alloc, shelf, "o.csv", report),
    )
}

/// Whether the run of a line over these files ends so.
pub fn ends<R: Threads + Sync>(
    rt: &R,
    alloc: Global,
    files: Vec<(String, Vec<u8>)>,
    line: &str,
    end: End,
) -> Result<bool, Fail> {
    let mut shelf = shelf_of(alloc, files)?;
    ends_by(rt, alloc, line, &mut shelf, &OpenGate, end)
}
