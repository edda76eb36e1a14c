//! A series takes its entries eight at a time, which shows where an input can't be read: all of the
//! earlier batches were written, and nothing of that input's own.

use super::ended::{assert_held, end_of};
use super::fixtures::PLAIN;
use sgm_app::Input;
use sgm_series::SeriesOutcome;
use sgm_work::OpenGate;
use std::test::Fail;

/// Nine entries, the last of which has no left image.
const LAST_ABSENT: &[u8] =
    b"l.pgm r.pgm - a\nl.pgm r.pgm - b\nl.pgm r.pgm - c\nl.pgm r.pgm - d\nl.pgm r.pgm - e\nl.pgm r.pgm - f\nl.pgm r.pgm - g\nl.pgm r.pgm - h\nnone r.pgm - i\n";

#[test]
fn eight_entries_are_written_before_the_ninth_is_read(rt: HostRuntime) -> Result<(), Fail> {
    let mut ended = end_of(&rt, rt.alloc(), "list", LAST_ABSENT, &OpenGate)?;
    let fault = SeriesOutcome::ReadFault {
        entry: 8,
        input: Input::Left,
    };
    assert!(rt; ended.outcome == fault);
    assert_held(
        &rt,
        rt.alloc(),
        &mut ended,
        &[
            ("a.pgm", Some(PLAIN)),
            ("b.pgm", Some(PLAIN)),
            ("c.pgm", Some(PLAIN)),
            ("d.pgm", Some(PLAIN)),
            ("e.pgm", Some(PLAIN)),
            ("f.pgm", Some(PLAIN)),
            ("g.pgm", Some(PLAIN)),
            ("h.pgm", Some(PLAIN)),
            ("i.pgm", None),
        ],
    )
}

/// Eight entries, the last of which has no right image.
const EIGHTH_ABSENT: &[u8] =
    b"l.pgm r.pgm - a\nl.pgm r.pgm - b\nl.pgm r.pgm - c\nl.pgm r.pgm - d\nl.pgm r.pgm - e\nl.pgm r.pgm - f\nl.pgm r.pgm - g\nl.pgm none - h\n";

#[test]
fn all_inputs_of_eight_entries_are_read_first(rt: HostRuntime) -> Result<(), Fail> {
    let mut ended = end_of(&rt, rt.alloc(), "list", EIGHTH_ABSENT, &OpenGate)?;
    let fault = SeriesOutcome::ReadFault {
        entry: 7,
        input: Input::Right,
    };
    assert!(rt; ended.outcome == fault);
    assert!(rt; ended.out.taken() == b"".as_slice());
    assert_held(
        &rt,
        rt.alloc(),
        &mut ended,
        &[("a.pgm", None), ("g.pgm", None)],
    )
}
