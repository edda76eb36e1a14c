//! `words WORDS`: what the words ask for, or the line of their first fault.

use crate::line::line_of;
use crate::parts::words_of;
use sgm_base::Refine;
use sgm_energy::Dir;
use sgm_outcome::Outcome;
use sgm_words::{Options, read_words};
use std::alloc::{AllocError, Global};
use std::fmt::Write;

fn push_refine(text: &mut String, refine: Refine) -> Result<(), AllocError> {
    let Refine { peak, fill } = refine;
    let fill = u32::from(fill);
    write!(text, " peak={peak} fill={fill}")
}

fn push_sharing(text: &mut String, strips: u32, workers: u32) -> Result<(), AllocError> {
    write!(text, " strips={strips} workers={workers}")
}

fn push_trace(text: &mut String, dir: Dir, pixel: (u32, u32), d: u32) -> Result<(), AllocError> {
    let (x, y) = pixel;
    write!(text, "trace dir={dir:?} x={x} y={y} d={d}")
}

/// Adds what the words ask for.
fn push_options(text: &mut String, options: Options) -> Result<(), AllocError> {
    match options {
        Options::Match {
            strips,
            workers,
            refine,
        } => {
            text.push_str("match")?;
            push_sharing(text, strips, workers)?;
            push_refine(text, refine)
        }
        Options::Demo {
            number,
            strips,
            workers,
            refine,
        } => {
            write!(text, "demo number={number}")?;
            push_sharing(text, strips, workers)?;
            push_refine(text, refine)
        }
        Options::Trace { dir, x, y, d } => push_trace(text, dir, (x, y), d),
        Options::Change => text.push_str("change"),
        Options::Merge => text.push_str("merge"),
    }
}

fn options_text(alloc: Global, options: Options) -> Result<String, AllocError> {
    let mut text = String::new(alloc);
    push_options(&mut text, options)?;
    Ok(text)
}

/// The answer to the case of that text.
pub fn answer(alloc: Global, case: &str) -> Result<String, AllocError> {
    match read_words(&words_of(alloc, case)?) {
        Ok(options) => options_text(alloc, options),
        Err(fault) => line_of(alloc, Outcome::Usage(fault)),
    }
}
