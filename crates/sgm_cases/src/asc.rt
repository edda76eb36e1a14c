//! `asc TEXT`: the grid that a grid's text tells, or the text's first fault.
//!
//! The answer is `ok` and the text that the grid is written as, in one line; or the fault with its
//! numbers.

use crate::escapes;
use sgm_grid::{AscError, AscFault, Grid, read_asc};
use std::alloc::{AllocError, Global};
use std::fmt::Write;

fn push_grid(alloc: Global, text: &mut String, grid: &Grid) -> Result<(), AllocError> {
    let mut written = Vec::new(alloc);
    grid.write_asc(&mut written)?;
    text.push_str("ok ")?;
    for byte in &written {
        escapes::push_escaped(text, *byte)?;
    }
    Ok(())
}

fn push_fault(text: &mut String, fault: AscFault) -> Result<(), AllocError> {
    match fault {
        AscFault::Word { at } => write!(text, "word {at}"),
        AscFault::Range { at } => write!(text, "range {at}"),
        AscFault::Count { have, need } => write!(text, "count {have} {need}"),
        AscFault::Height { index } => write!(text, "height {index}"),
    }
}

fn push_answer(alloc: Global, text: &mut String, bytes: &[u8]) -> Result<(), AllocError> {
    match read_asc(alloc, bytes) {
        Ok(grid) => push_grid(alloc, text, &grid),
        Err(AscError::Fault(fault)) => push_fault(text, fault),
        Err(AscError::NoMemory) => text.push_str("out of memory"),
    }
}

/// The answer to the case of that text.
pub fn answer(alloc: Global, case: &str) -> Result<String, AllocError> {
    let bytes = escapes::unescaped(alloc, case)?;
    let mut text = String::new(alloc);
    push_answer(alloc, &mut text, &bytes)?;
    Ok(text)
}
