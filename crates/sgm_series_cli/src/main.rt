//! A series of pairs as a program: real files, standard streams, and the status of the run.
#![tactic(auto)]

use sgm_io::{DiskShelf, StdSink};
use sgm_series::{SeriesOutcome, run_series, write_series_outcome};
use sgm_work::OpenGate;
use std::io::ErrorKind;
use std::process::ExitCode;
use std::{env, io};

// The status where the system gives no words, for any cause but want of memory.
const NO_WORDS: u8 = 1;

// The words after the program's name.
fn words(rt: &HostRuntime) -> io::Result<Vec<String>> {
    let mut words = Vec::new(rt.alloc());
    for word in env::args(rt)?.skip(1) {
        words.push(word)?;
    }
    Ok(words)
}

// The status where there are no words. Want of memory has its line.
fn end_without_words(rt: &HostRuntime, error: &io::Error) -> u8 {
    if error.kind() != ErrorKind::OutOfMemory {
        return NO_WORDS;
    }
    let outcome = SeriesOutcome::NoMemory;
    let _ = write_series_outcome(&outcome, &mut StdSink::make(rt.stderr()));
    outcome.status()
}

fn main(rt: HostRuntime) -> ExitCode {
    let words = match words(&rt) {
        Ok(words) => words,
        Err(error) => return ExitCode::from(end_without_words(&rt, &error)),
    };
    let mut shelf = DiskShelf::make(&rt, rt.alloc());
    let mut out = StdSink::make(rt.stdout());
    let mut err = StdSink::make(rt.stderr());
    let outcome = run_series(
        &rt,
        rt.alloc(),
        &words,
        &mut shelf,
        &mut out,
        &mut err,
        &OpenGate,
    );
    ExitCode::from(outcome.status())
}
