//! What a series writes.

use super::ended::{assert_held, end_of};
use super::fixtures::{BOTH_SUMMARIES, DISPARITIES, HEIGHTS, LIST, PLAIN, REPORT};
use sgm_series::SeriesOutcome;
use sgm_work::OpenGate;
use std::test::Fail;

#[test]
fn each_entry_has_its_files_and_its_summary(rt: HostRuntime) -> Result<(), Fail> {
    for line in ["list", "list workers=1", "list workers=2"] {
        let mut ended = end_of(&rt, rt.alloc(), line, LIST, &OpenGate)?;
        assert!(rt; ended.outcome == SeriesOutcome::Done, "{line}");
        assert!(rt; ended.out.taken() == BOTH_SUMMARIES, "{line}");
        assert!(rt; ended.err.taken() == b"".as_slice(), "{line}");
        assert_held(
            &rt,
            rt.alloc(),
            &mut ended,
            &[
                ("o.pgm", Some(DISPARITIES)),
                ("o.asc", Some(HEIGHTS)),
                ("o.csv", Some(REPORT)),
                ("p.pgm", Some(PLAIN)),
                ("p.asc", None),
                ("p.csv", None),
            ],
        )?;
    }
    Ok(())
}

#[test]
fn an_empty_list_is_done_and_writes_nothing(rt: HostRuntime) -> Result<(), Fail> {
    let ended = end_of(&rt, rt.alloc(), "list", b"", &OpenGate)?;
    assert!(rt; ended.outcome == SeriesOutcome::Done);
    assert!(rt; ended.out.taken() == b"".as_slice());
    assert!(rt; ended.err.taken() == b"".as_slice());
    Ok(())
}
