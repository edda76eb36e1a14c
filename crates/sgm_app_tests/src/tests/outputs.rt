//! What a match writes.

use super::ended::{End, ends};
use super::fixtures::{DISPARITIES, HEIGHTS, REPORT, SUMMARY, add, example, files_with, joined};
use sgm_app::{MadeTexts, Refine, texts};
use sgm_example::{CALIBRATION, CAMERA, END, GRID, LEFT, REGIONS, RIGHT, SETTINGS};
use sgm_work::OpenGate;
use std::alloc::{AllocError, Global};
use std::test::Fail;

/// A run that is done, with these outputs.
fn done(outputs: [Option<&[u8]>; 3]) -> End {
    End {
        status: 0,
        out: SUMMARY,
        err: b"",
        outputs,
    }
}

#[test]
fn the_worked_example_is_written_whole(rt: HostRuntime) -> Result<(), Fail> {
    let alloc = rt.alloc();
    let end = done([Some(DISPARITIES), Some(HEIGHTS), Some(REPORT)]);
    for line in [
        "match l.pgm r.pgm c.json o strips=1",
        "match l.pgm r.pgm c.json o strips=3 workers=2",
    ] {
        assert!(rt; ends(&rt, alloc, example(alloc)?, line, end)?);
    }
    Ok(())
}

/// Whether these are the texts of the worked example.
fn are_texts(made: &MadeTexts) -> bool {
    made.disparity.as_slice() == DISPARITIES
        && made.heights.as_deref() == Some(HEIGHTS)
        && made.report.as_deref() == Some(REPORT)
        && made.summary.as_slice() == SUMMARY
}

#[test]
fn the_texts_of_the_worked_example_are_those_that_are_written(rt: HostRuntime) -> Result<(), Fail> {
    let alloc = rt.alloc();
    let calib = joined(alloc, &CALIBRATION)?;
    let calib = Some(calib.as_bytes());
    let refine = Refine::PLAIN;
    match texts(&rt, alloc, LEFT, RIGHT, calib, 3, 2, refine, &OpenGate) {
        Ok(made) => {
            assert!(rt; are_texts(&made));
            Ok(())
        }
        Err(_) => Err(Fail::new("the worked example is refused")),
    }
}

#[test]
fn the_calibration_asks_for_the_files(rt: HostRuntime) -> Result<(), Fail> {
    let alloc = rt.alloc();
    let line = "match l.pgm r.pgm c.json o";
    let end = done([Some(DISPARITIES), None, None]);
    let files = files_with(alloc, &[SETTINGS, END])?;
    assert!(rt; ends(&rt, alloc, files, line, end)?);

    let end = done([Some(DISPARITIES), Some(HEIGHTS), None]);
    let files = files_with(alloc, &[SETTINGS, CAMERA, GRID, END])?;
    assert!(rt; ends(&rt, alloc, files, line, end)?);
    Ok(())
}

/// What the calibration of the worked example begins with in version 2, up to whether its penalties
/// follow the image.
const SETTINGS_2: &str =
    "{\"version\":2,\"disparities\":{\"first\":0,\"count\":2},\"census\":{\"width\":3,\"height\":3},\"penalties\":{\"p1\":1,\"p2\":3";

// Two indices never differ by more than 1, so it doesn't matter what a greater change costs.
#[test]
fn penalties_may_follow_the_image(rt: HostRuntime) -> Result<(), Fail> {
    let alloc = rt.alloc();
    let end = done([Some(DISPARITIES), Some(HEIGHTS), Some(REPORT)]);
    for adapt in [",\"adapt\":false}", ",\"adapt\":true}"] {
        let files = files_with(alloc, &[SETTINGS_2, adapt, CAMERA, GRID, REGIONS, END])?;
        assert!(rt; ends(&rt, alloc, files, "match l.pgm r.pgm c.json o", end)?);
    }
    Ok(())
}

/// Peaks of fewer than twenty pixels are all there is of the fifteen, and nothing is left to fill
/// the gaps with.
const NOTHING: End<'static> = End {
    status: 0,
    out: b"valid 0 of 15\n",
    err: b"",
    outputs: [
        Some(
            b"P5\n5 3\n65535\n\x00\x00\x00\x00\x00\x00\x00\x00\x00\x00\x00\x00\x00\x00\x00\x00\x00\x00\x00\x00\x00\x00\x00\x00\x00\x00\x00\x00\x00\x00",
        ),
        Some(
            b"ncols 4\nnrows 3\nxllcorner 2000\nyllcorner -2000\ncellsize 1000\nNODATA_value -2147483648\n-2147483648 -2147483648 -2147483648 -2147483648\n-2147483648 -2147483648 -2147483648 -2147483648\n-2147483648 -2147483648 -2147483648 -2147483648\n",
        ),
        Some(b"region,cells,empty,fill,cut,lowest,highest\nall,0,12,0,0,,\neast,0,1,0,0,,\n"),
    ],
};

#[test]
fn peaks_and_gaps_whatever_the_strips_and_the_workers(rt: HostRuntime) -> Result<(), Fail> {
    let alloc = rt.alloc();
    for line in [
        "match l.pgm r.pgm c.json o peak=20 fill=1 strips=1 workers=1",
        "match l.pgm r.pgm c.json o peak=20 fill=1 strips=3 workers=2",
    ] {
        assert!(rt; ends(&rt, alloc, example(alloc)?, line, NOTHING)?);
    }
    Ok(())
}

// A pair of two pixels.
fn two_pixels(alloc: Global) -> Result<Vec<(String, Vec<u8>)>, AllocError> {
    let mut files = Vec::new(alloc);
    add(alloc, &mut files, "two.pgm", b"P5\n2 1\n255\n\x00\xff")?;
    Ok(files)
}

#[test]
fn plain_settings_serve_a_pair_of_two_pixels(rt: HostRuntime) -> Result<(), Fail> {
    let alloc = rt.alloc();
    let disparities = b"P5\n2 1\n65535\n\x00\x10\x00\x10".as_slice();
    let end = End {
        out: b"valid 2 of 2\n",
        ..done([Some(disparities), None, None])
    };
    for line in [
        "match two.pgm two.pgm - o",
        "match two.pgm two.pgm - o strips=64 workers=16",
    ] {
        assert!(rt; ends(&rt, alloc, two_pixels(alloc)?, line, end)?);
    }
    Ok(())
}
