//! That a run hands on its strips and its workers, which no clause can say: the gates see it.

use super::ended::{End, ends_by, shelf_of};
use super::fixtures::{DISPARITIES, HEIGHTS, REPORT, SUMMARY, example, files_with};
use sgm_recorders::{Meeting, ONE_AT_THREE, Recorder};
use sgm_work::Gate;
use std::alloc::Global;
use std::test::Fail;
use std::thread::Threads;

/// Whether the run of a line over the worked example, whose workers pass the gate, writes it whole.
fn writes_example<R: Threads + Sync, G: Gate + Sync>(
    rt: &R,
    alloc: Global,
    line: &str,
    gate: &G,
) -> Result<bool, Fail> {
    let end = End {
        status: 0,
        out: SUMMARY,
        err: b"",
        outputs: [Some(DISPARITIES), Some(HEIGHTS), Some(REPORT)],
    };
    let mut shelf = shelf_of(alloc, example(alloc)?)?;
    ends_by(rt, alloc, line, &mut shelf, gate, end)
}

#[test]
fn one_worker_by_board(rt: HostRuntime) -> Result<(), Fail> {
    let recorder = Recorder::new();
    let line = "match l.pgm r.pgm c.json o strips=3 workers=1";
    assert!(rt; writes_example(&rt, rt.alloc(), line, &recorder)?);
    assert!(rt; recorder.has(&ONE_AT_THREE));
    Ok(())
}

#[test]
fn two_workers_overlap(rt: HostRuntime) -> Result<(), Fail> {
    let meeting = Meeting::of(2);
    let line = "match l.pgm r.pgm c.json o strips=2 workers=2";
    assert!(rt; writes_example(&rt, rt.alloc(), line, &meeting)?);
    assert!(rt; meeting.has_met());
    Ok(())
}

/// Whether a demo of the number 0, whose workers pass the gate, has its two lines and no file.
fn shows_demo<R: Threads + Sync, G: Gate + Sync>(
    rt: &R,
    alloc: Global,
    line: &str,
    gate: &G,
) -> Result<bool, Fail> {
    let end = End {
        status: 0,
        out: b"valid 45516 of 49152\nsum 11360085\n",
        err: b"",
        outputs: [None; 3],
    };
    let mut shelf = shelf_of(alloc, files_with(alloc, &[])?)?;
    ends_by(rt, alloc, line, &mut shelf, gate, end)
}

#[test]
fn a_demo_by_one_worker(rt: HostRuntime) -> Result<(), Fail> {
    let recorder = Recorder::new();
    let line = "demo 0 strips=3";
    assert!(rt; shows_demo(&rt, rt.alloc(), line, &recorder)?);
    assert!(rt; recorder.has(&ONE_AT_THREE));
    Ok(())
}

#[test]
fn a_demo_by_two_workers(rt: HostRuntime) -> Result<(), Fail> {
    let meeting = Meeting::of(2);
    let line = "demo 0 workers=2 strips=5";
    assert!(rt; shows_demo(&rt, rt.alloc(), line, &meeting)?);
    assert!(rt; meeting.has_met());
    Ok(())
}
