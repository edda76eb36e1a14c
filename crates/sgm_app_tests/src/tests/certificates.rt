//! What a trace prints, and how it ends else. More are stored cases of `sgm_cases`.

use super::ended::{End, ends, refused};
use super::fixtures::example;
use std::alloc::Global;
use std::test::Fail;
use std::thread::Threads;

/// Whether the trace of a ray of the worked example ends so, and writes no file.
fn traces<R: Threads + Sync>(rt: &R, alloc: Global, line: &str, end: End) -> Result<bool, Fail> {
    ends(rt, alloc, example(alloc)?, line, end)
}

/// Whether that trace prints this.
fn prints<R: Threads + Sync>(rt: &R, alloc: Global, line: &str, out: &str) -> Result<bool, Fail> {
    let end = End {
        out: out.as_bytes(),
        ..refused(0, "")
    };
    traces(rt, alloc, line, end)
}

// The row 1 of the pair has the costs (8,8), (6,8), (6,0), .. of the indices 0 and 1, and a change
// by one costs 1: along the first three pixels the least energy that ends in 1 is 8 + 6 + 0 and one
// change.
#[test]
fn the_certificate_adds_up_to_the_least_energy(rt: HostRuntime) -> Result<(), Fail> {
    let alloc = rt.alloc();
    let line = "trace l.pgm r.pgm c.json right 2 1 1";
    let out = "least 15\n0 1 0 8 0\n1 1 0 6 0\n2 1 1 0 1\n";
    assert!(rt; prints(&rt, alloc, line, out)?);

    // A pixel that begins its ray has its cost.
    let line = "trace l.pgm r.pgm c.json down 0 0 0";
    assert!(rt; prints(&rt, alloc, line, "least 8\n0 0 0 8 0\n")?);
    Ok(())
}

#[test]
fn a_pixel_that_there_is_not_is_refused(rt: HostRuntime) -> Result<(), Fail> {
    let end = refused(3, "sgm: no pixel 9 1 with index 1\n");
    let line = "trace l.pgm r.pgm c.json right 9 1 1";
    assert!(rt; traces(&rt, rt.alloc(), line, end)?);
    Ok(())
}

#[test]
fn words_end_a_trace(rt: HostRuntime) -> Result<(), Fail> {
    let end = refused(2, "sgm: word 4 is not a direction\n");
    let line = "trace l.pgm r.pgm c.json sideways 2 1 1";
    assert!(rt; traces(&rt, rt.alloc(), line, end)?);
    let end = refused(2, "sgm: word 8 is not an option\n");
    let line = "trace l.pgm r.pgm c.json right 2 1 1 strips=1";
    assert!(rt; traces(&rt, rt.alloc(), line, end)?);
    Ok(())
}
