//! The line of an outcome.

use sgm_io::MemorySink;
use sgm_outcome::{Outcome, write_fault};
use std::alloc::{AllocError, Global};
use std::str;

/// The line of an outcome, without its end.
pub fn line_of(alloc: Global, outcome: Outcome) -> Result<String, AllocError> {
    let mut sink = MemorySink::make(alloc, 256, None)?;
    write_fault(&outcome, &mut sink);
    let line = str::from_utf8(sink.taken()).unwrap_or("not UTF-8");
    String::from_str(alloc, line.trim_end())
}
