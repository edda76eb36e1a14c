//! `run WORDS ; FIELD ; FIELD ..`: how a run ends in memory, where the files of the worked example
//! are held.
//!
//! The fields are `file NAME TEXT`, a file that is held besides or in place of one of those; a call
//! that fails once, `trip fetch NAME`, `trip create NAME`, `trip append NAME LENGTH` or `trip
//! finish NAME`; `sure` for a shelf where nothing fails and every name is held; `out LENGTH` and
//! `err LENGTH`, where standard output and standard error fail once, at that length. The answer is
//! the status, what is held under the names o.pgm, o.asc and o.csv, and what the two streams
//! received, with `\n`, `\\` and bytes as `\x0f`; last, where standard error hasn't received the
//! line of the outcome, ` | outcome LINE`.

use crate::line::line_of;
use crate::parts::{cut, words_of};
use crate::{escapes, example};
use sgm_app::run;
use sgm_io::{FetchError, MemoryShelf, MemorySink, Shelf, SureShelf, Trip};
use sgm_outcome::Outcome;
use sgm_work::OpenGate;
use std::alloc::{AllocError, Global};
use std::fmt::Write;
use std::str;
use std::thread::Threads;

/// The room of a stream, and the most bytes of a file that is looked at.
const ROOM: usize = 1_048_576;

/// What a case asks for.
#[derive(Drop)]
struct Case {
    words: Vec<String>,
    files: Vec<(String, Vec<u8>)>,
    trips: Vec<Trip>,
    is_sure: bool,
    out_stop: Option<usize>,
    err_stop: Option<usize>,
}

fn read_trip(alloc: Global, text: &str) -> Result<Option<Trip>, AllocError> {
    let (call, rest) = cut(text);
    let (name, length) = cut(rest);
    let name = String::from_str(alloc, name)?;
    match call {
        "fetch" => Ok(Some(Trip::Fetch { name })),
        "create" => Ok(Some(Trip::Create { name })),
        "finish" => Ok(Some(Trip::Finish { name })),
        "append" => match length.parse() {
            Ok(length) => Ok(Some(Trip::AppendAt { name, length })),
            Err(_) => Ok(None),
        },
        _ => Ok(None),
    }
}

impl Case {
    fn add_trip(&mut self, alloc: Global, text: &str) -> Result<bool, AllocError> {
        match read_trip(alloc, text)? {
            Some(trip) => {
                self.trips.push(trip)?;
                Ok(true)
            }
            None => Ok(false),
        }
    }

    fn add_file(&mut self, alloc: Global, text: &str) -> Result<bool, AllocError> {
        let (name, text) = cut(text);
        self.files.push(example::file(alloc, name, text)?)?;
        Ok(true)
    }

    fn set_out(&mut self, text: &str) -> bool {
        self.out_stop = text.parse().ok();
        self.out_stop.is_some()
    }

    fn set_err(&mut self, text: &str) -> bool {
        self.err_stop = text.parse().ok();
        self.err_stop.is_some()
    }

    /// Takes in a field, and answers whether there is such a one.
    fn add(&mut self, alloc: Global, field: &str) -> Result<bool, AllocError> {
        let (kind, rest) = cut(field);
        match kind {
            "file" => self.add_file(alloc, rest),
            "trip" => self.add_trip(alloc, rest),
            "out" => Ok(self.set_out(rest)),
            "err" => Ok(self.set_err(rest)),
            "sure" => {
                self.is_sure = true;
                Ok(true)
            }
            _ => Ok(false),
        }
    }

    /// Takes in all fields, and answers whether there are such.
    fn add_all(&mut self, alloc: Global, fields: &str) -> Result<bool, AllocError> {
        if fields.is_empty() {
            return Ok(true);
        }
        for field in fields.split(" ; ") {
            if !self.add(alloc, field)? {
                return Ok(false);
            }
        }
        Ok(true)
    }
}

/// The case of those words that asks for nothing else.
fn plain_case(alloc: Global, words: &str) -> Result<Case, AllocError> {
    Ok(Case {
        words: words_of(alloc, words)?,
        files: example::files(alloc)?,
        trips: Vec::new(alloc),
        is_sure: false,
        out_stop: None,
        err_stop: None,
    })
}

fn read_case(alloc: Global, text: &str) -> Result<Option<Case>, AllocError> {
    let (words, fields) = text.split_once(" ; ").unwrap_or((text, ""));
    let mut case = plain_case(alloc, words)?;
    if case.add_all(alloc, fields)? {
        Ok(Some(case))
    } else {
        Ok(None)
    }
}

fn push_quoted(text: &mut String, bytes: &[u8]) -> Result<(), AllocError> {
    text.push_str("\"")?;
    for byte in bytes {
        escapes::push_escaped(text, *byte)?;
    }
    text.push_str("\"")
}

fn push_held<S: Shelf>(
    alloc: Global,
    text: &mut String,
    shelf: &mut S,
    name: &str,
) -> Result<(), AllocError> {
    let mut bytes = Vec::new(alloc);
    write!(text, " | {name} ")?;
    match shelf.fetch(name, ROOM, &mut bytes) {
        Ok(()) => push_quoted(text, &bytes),
        Err(FetchError::Failed) => text.push_str("absent"),
        Err(FetchError::TooLong) => text.push_str("too long"),
        Err(FetchError::NoMemory) => text.push_str("out of memory"),
    }
}

/// Adds the line of the outcome where it isn't what standard error received.
fn push_untold(
    alloc: Global,
    text: &mut String,
    outcome: Outcome,
    taken: &[u8],
) -> Result<(), AllocError> {
    let line = line_of(alloc, outcome)?;
    let told = str::from_utf8(taken).unwrap_or("not UTF-8").trim_end();
    if line.as_str() == told {
        Ok(())
    } else {
        write!(text, " | outcome {line}")
    }
}

/// What a run writes is held under these names.
const OUTPUTS: [&str; 3] = ["o.pgm", "o.asc", "o.csv"];

fn push_files<S: Shelf>(alloc: Global, text: &mut String, shelf: &mut S) -> Result<(), AllocError> {
    for name in &OUTPUTS {
        push_held(alloc, text, shelf, name)?;
    }
    Ok(())
}

fn push_streams(text: &mut String, out: &[u8], err: &[u8]) -> Result<(), AllocError> {
    text.push_str(" | out ")?;
    push_quoted(text, out)?;
    text.push_str(" | err ")?;
    push_quoted(text, err)
}

/// Adds how a run ended, what the shelf holds then, and what the two streams received.
fn push_end<S: Shelf>(
    alloc: Global,
    text: &mut String,
    outcome: Outcome,
    shelf: &mut S,
    (out, err): (&[u8], &[u8]),
) -> Result<(), AllocError> {
    let status = outcome.status();
    write!(text, "{status}")?;
    push_files(alloc, text, shelf)?;
    push_streams(text, out, err)?;
    push_untold(alloc, text, outcome, err)
}

/// How a run of these words ends over the shelf, with these streams.
fn end_of<R: Threads + Sync, S: Shelf>(
    rt: &R,
    alloc: Global,
    words: &[String],
    shelf: &mut S,
    out: &mut MemorySink,
    err: &mut MemorySink,
) -> Result<String, AllocError> {
    let outcome = run(rt, alloc, words, shelf, out, err, &OpenGate);
    let mut text = String::new(alloc);
    push_end(alloc, &mut text, outcome, shelf, (out.taken(), err.taken()))?;
    Ok(text)
}

/// How a case ends, with these streams.
fn end_with<R: Threads + Sync>(
    rt: &R,
    alloc: Global,
    case: Case,
    out: &mut MemorySink,
    err: &mut MemorySink,
) -> Result<String, AllocError> {
    let Case {
        words,
        files,
        trips,
        is_sure,
        out_stop: _,
        err_stop: _,
    } = case;
    if is_sure {
        let mut shelf = SureShelf::make(alloc, files)?;
        end_of(rt, alloc, &words, &mut shelf, out, err)
    } else {
        let mut shelf = MemoryShelf::make(alloc, files, trips)?;
        end_of(rt, alloc, &words, &mut shelf, out, err)
    }
}

fn end_of_case<R: Threads + Sync>(rt: &R, alloc: Global, case: Case) -> Result<String, AllocError> {
    let mut out = MemorySink::make(alloc, ROOM, case.out_stop)?;
    let mut err = MemorySink::make(alloc, ROOM, case.err_stop)?;
    end_with(rt, alloc, case, &mut out, &mut err)
}

/// The answer to the case of that text.
pub fn answer<R: Threads + Sync>(rt: &R, alloc: Global, case: &str) -> Result<String, AllocError> {
    match read_case(alloc, case)? {
        Some(case) => end_of_case(rt, alloc, case),
        None => String::from_str(alloc, "no such case"),
    }
}
