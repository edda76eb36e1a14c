//! Series that are refused, whole or in part.

use super::ended::{Ended, assert_held, end_of, end_over};
use super::fixtures::{DISPARITIES, HEIGHTS, REPORT, SUMMARY, file, files_with};
use sgm_series::{ListFault, SeriesOutcome};
use sgm_work::OpenGate;
use std::alloc::{AllocError, Global};
use std::process::Abort;
use std::test::Fail;

#[test]
fn a_refused_entry_leaves_the_others(rt: HostRuntime) -> Result<(), Fail> {
    let list = b"l.pgm r.pgm c.json o\nl.pgm s.pgm - p\n";
    let mut ended = end_of(&rt, rt.alloc(), "list", list, &OpenGate)?;
    assert!(rt; ended.outcome == SeriesOutcome::SomeRefused { entries: 1 });
    assert!(rt; ended.out.taken() == SUMMARY);
    let lines = b"sgm: sizes differ: 5x3 and 4x3\nsgm_series: 1 entries refused\n";
    assert!(rt; ended.err.taken() == lines.as_slice());
    assert_first_alone(&rt, rt.alloc(), &mut ended)
}

/// That the worked example was written whole to o, and nothing to p.
fn assert_first_alone(rt: &impl Abort, alloc: Global, ended: &mut Ended) -> Result<(), Fail> {
    assert_held(
        rt,
        alloc,
        ended,
        &[
            ("o.pgm", Some(DISPARITIES)),
            ("o.asc", Some(HEIGHTS)),
            ("o.csv", Some(REPORT)),
            ("p.pgm", None),
            ("p.asc", None),
            ("p.csv", None),
        ],
    )
}

/// The files of the worked example, this list, and a file of so many spaces.
fn files_and_spaces(
    alloc: Global,
    list: &[u8],
    name: &str,
    length: usize,
) -> Result<Vec<(String, Vec<u8>)>, AllocError> {
    let mut files = files_with(alloc, list)?;
    files.push(file(alloc, name, &vec![in alloc; b' '; length]?)?)?;
    Ok(files)
}

#[test]
fn an_entry_with_an_input_that_is_too_long_is_refused(rt: HostRuntime) -> Result<(), Fail> {
    let list = b"l.pgm r.pgm c.json o\nl.pgm r.pgm long p\n";
    let files = files_and_spaces(rt.alloc(), list, "long", 16_777_217)?;
    let mut ended = end_over(&rt, rt.alloc(), "list", files, &OpenGate)?;
    assert!(rt; ended.outcome == SeriesOutcome::SomeRefused { entries: 1 });
    assert!(rt; ended.out.taken() == SUMMARY);
    let lines = b"sgm: calibration is too long\nsgm_series: 1 entries refused\n";
    assert!(rt; ended.err.taken() == lines.as_slice());
    assert_first_alone(&rt, rt.alloc(), &mut ended)
}

#[test]
fn a_list_that_is_too_long_is_refused(rt: HostRuntime) -> Result<(), Fail> {
    let fault = SeriesOutcome::RefusedList(ListFault::TooLong);
    for (length, outcome) in [(1_048_576, SeriesOutcome::Done), (1_048_577, fault)] {
        let files = files_and_spaces(rt.alloc(), b"", "spaces", length)?;
        let ended = end_over(&rt, rt.alloc(), "spaces", files, &OpenGate)?;
        assert!(rt; ended.outcome == outcome, "{length}");
        assert!(rt; ended.out.taken() == b"".as_slice(), "{length}");
    }
    Ok(())
}

/// Lists and their faults.
const FAULTS: [(&[u8], ListFault); 3] = [
    (b"l.pgm r.pgm - o\n\xff", ListFault::NotText),
    (
        b"l.pgm r.pgm c.json o\nl.pgm o.pgm - p\n",
        ListFault::Clash { entry: 1 },
    ),
    (
        b"l.pgm r.pgm c.json o\nl.pgm r.pgm p\n",
        ListFault::Line { number: 2 },
    ),
];

#[test]
fn a_list_with_a_fault_writes_nothing(rt: HostRuntime) -> Result<(), Fail> {
    for (list, fault) in &FAULTS {
        let mut ended = end_of(&rt, rt.alloc(), "list", list, &OpenGate)?;
        assert!(rt; ended.outcome == SeriesOutcome::RefusedList(*fault));
        assert!(rt; ended.out.taken() == b"".as_slice());
        assert_held(&rt, rt.alloc(), &mut ended, &[("o.pgm", None)])?;
    }
    Ok(())
}
