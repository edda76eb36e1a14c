//! By whom the entries of a series are made, which no clause can say: the gates see it.

use super::ended::end_of;
use super::fixtures::{BOTH_SUMMARIES, LIST, SUMMARIES_OF_THREE, THREE};
use sgm_recorders::{Meeting, Recorder};
use sgm_series::SeriesOutcome;
use std::test::Fail;

#[test]
fn series_workers_overlap(rt: HostRuntime) -> Result<(), Fail> {
    let meeting = Meeting::of(2);
    let ended = end_of(&rt, rt.alloc(), "list workers=2", LIST, &meeting)?;
    assert!(rt; ended.outcome == SeriesOutcome::Done);
    assert!(rt; ended.out.taken() == BOTH_SUMMARIES);
    assert!(rt; meeting.has_met());
    Ok(())
}

#[test]
fn one_worker_makes_all_entries(rt: HostRuntime) -> Result<(), Fail> {
    for line in ["list", "list workers=1"] {
        let recorder = Recorder::new();
        let ended = end_of(&rt, rt.alloc(), line, THREE, &recorder)?;
        assert!(rt; ended.outcome == SeriesOutcome::Done, "{line}");
        assert!(rt; ended.out.taken() == SUMMARIES_OF_THREE, "{line}");
        assert!(rt; recorder.has(&[(0, 0), (0, 1), (0, 2)]), "{line}");
    }
    Ok(())
}
