//! Compares answers with those that were worked out apart from the program. Standard input has two
//! lines for each case: `KIND REST`, and the answer as the formats ask for it. A case that is
//! answered otherwise is printed with its answer. What a kind asks and how its answers are written
//! is said in its module.
//!
//! The stored input is a test of the crates below. Its last case has a false answer, so it is
//! printed.
#![tactic(auto)]

mod asc;
mod calib;
mod cells;
mod escapes;
mod example;
mod fine;
mod kernel;
mod line;
mod mean;
mod parts;
mod point;
mod regions;
mod rows;
mod run;
mod words;

use parts::cut;
use std::alloc::{AllocError, Global};
use std::io;
use std::io::Print;
use std::thread::Threads;

fn answer<R: Threads + Sync>(
    rt: &R,
    alloc: Global,
    kind: &str,
    rest: &str,
) -> Result<String, AllocError> {
    match kind {
        "asc" => asc::answer(alloc, rest),
        "calib" => calib::answer(alloc, rest),
        "cells" => cells::answer(alloc, rest),
        "fine" => fine::answer(alloc, rest),
        "kernel" => kernel::answer(alloc, rest),
        "mean" => mean::answer(alloc, rest),
        "point" => point::answer(alloc, rest),
        "regions" => regions::answer(alloc, rest),
        "run" => run::answer(rt, alloc, rest),
        "words" => words::answer(alloc, rest),
        _ => String::from_str(alloc, "no such kind"),
    }
}

fn print(rt: &impl Print, case: &str, answer: &str) -> io::Result<()> {
    println!(rt; "{case}: {answer}")
}

/// Prints the case where its answer isn't the one that is owed.
fn compare<R: Print + Threads + Sync>(
    rt: &R,
    alloc: Global,
    case: &str,
    owed: &str,
) -> io::Result<()> {
    let (kind, rest) = cut(case);
    let text = answer(rt, alloc, kind, rest)?;
    if text.as_str() == owed {
        Ok(())
    } else {
        print(rt, case, text.as_str())
    }
}

fn main(rt: HostRuntime) -> io::Result<()> {
    let mut asked: Option<String> = None;
    for line in rt.lines(rt.alloc()) {
        let line = line?;
        match asked.take() {
            None => asked = Some(line),
            Some(case) => compare(&rt, rt.alloc(), case.as_str(), line.as_str())?,
        }
    }
    match asked {
        None => Ok(()),
        Some(case) => compare(&rt, rt.alloc(), case.as_str(), ""),
    }
}
