//! Series in memory, and what stands after them.

use super::fixtures::{files_with, words_of};
use sgm_io::{MemoryShelf, MemorySink, Shelf, Trip};
use sgm_series::{SeriesOutcome, run_series};
use sgm_work::Gate;
use std::alloc::{AllocError, Global};
use std::process::Abort;
use std::sync::Wait;
use std::test::Fail;
use std::thread::Threads;

/// How a series ended: its outcome, the shelf, and what each sink has received.
#[derive(Drop)]
pub struct Ended {
    pub outcome: SeriesOutcome,
    pub shelf: MemoryShelf,
    pub out: MemorySink,
    pub err: MemorySink,
}

/// How the series of these words ends over the files of the worked example and this list.
pub fn end_of<R: Threads + Wait + Sync, G: Gate + Sync>(
    rt: &R,
    alloc: Global,
    line: &str,
    list: &[u8],
    gate: &G,
) -> Result<Ended, AllocError> {
    end_over(rt, alloc, line, files_with(alloc, list)?, gate)
}

/// How the series of these words ends over these files.
pub fn end_over<R: Threads + Wait + Sync, G: Gate + Sync>(
    rt: &R,
    alloc: Global,
    line: &str,
    files: Vec<(String, Vec<u8>)>,
    gate: &G,
) -> Result<Ended, AllocError> {
    let trips: Vec<Trip> = Vec::new(alloc);
    let mut shelf = MemoryShelf::make(alloc, files, trips)?;
    let mut out = MemorySink::make(alloc, 4096, None)?;
    let mut err = MemorySink::make(alloc, 4096, None)?;
    let words = words_of(alloc, line)?;
    let outcome = run_series(rt, alloc, &words, &mut shelf, &mut out, &mut err, gate);
    Ok(Ended {
        outcome,
        shelf,
        out,
        err,
    })
}

/// That these names hold this, or are absent.
pub fn assert_held(
    rt: &impl Abort,
    alloc: Global,
    ended: &mut Ended,
    files: &[(&str, Option<&[u8]>)],
) -> Result<(), Fail> {
    for (name, wanted) in files {
        let mut bytes = Vec::new(alloc);
        let found = match ended.shelf.fetch(name, 1_048_576, &mut bytes) {
            Ok(()) => Some(bytes.as_slice()),
            Err(_) => None,
        };
        assert!(rt; found == *wanted, "{name}");
    }
    Ok(())
}
