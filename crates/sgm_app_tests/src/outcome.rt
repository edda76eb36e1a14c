//! The status and the line of each kind of outcome. Stored cases of `sgm_cases` end with each
//! refusal.

use sgm_io::MemorySink;
use sgm_outcome::{Outcome, Refusal, write_fault};
use sgm_words::{Input, Output, UsageFault};
use std::alloc::{AllocError, Global};
use std::test::Fail;

/// Whether a sink of so many bytes receives this from the outcome's line.
fn receives(alloc: Global, outcome: Outcome, room: usize, line: &str) -> Result<bool, AllocError> {
    let mut sink = MemorySink::make(alloc, room, None)?;
    write_fault(&outcome, &mut sink);
    Ok(sink.taken() == line.as_bytes())
}

/// An outcome of each kind, its status and its line.
const ENDS: [(Outcome, u8, &str); 6] = [
    (Outcome::Done, 0, ""),
    (
        Outcome::Usage(UsageFault::TooFew { have: 3, need: 4 }),
        2,
        "sgm: 3 words after the command, 4 needed\n",
    ),
    (
        Outcome::Refused(Refusal::TooLong(Input::Left)),
        3,
        "sgm: left is too long\n",
    ),
    (
        Outcome::ReadFault(Input::Calibration),
        4,
        "sgm: cannot read calibration\n",
    ),
    (
        Outcome::WriteFault(Output::Summary),
        5,
        "sgm: cannot write summary\n",
    ),
    (Outcome::NoMemory, 6, "sgm: no memory\n"),
];

#[test]
fn each_end_has_its_status_and_its_line(rt: HostRuntime) -> Result<(), Fail> {
    for (outcome, status, line) in &ENDS {
        assert!(rt; receives(rt.alloc(), *outcome, 256, line)? && outcome.status() == *status);
    }
    Ok(())
}

#[test]
fn a_sink_that_is_full_has_the_beginning_of_the_line(rt: HostRuntime) -> Result<(), Fail> {
    assert!(rt; receives(rt.alloc(), Outcome::NoMemory, 7, "sgm: no")?);
    Ok(())
}
