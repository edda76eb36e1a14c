//! The worked example at several numbers of strips and workers. Other surveys, and pairs that are
//! refused, are stored runs of `sgm_cases`, and certificates there have the costs and the penalties
//! of single pixels.

ghost use Rattle.std.specs.Prelude.{◌≤◌};
ghost use Rattle.sgm_base.specs.declared.limits.TheConstants.{MAX_STRIPS, MAX_WORKERS};

use crate::fixtures::{LEFT, RIGHT, calib, image_of_rows};
use sgm_calib::Calib;
use sgm_example::{CAMERA, GRID, REGIONS, SETTINGS};
use sgm_job::{Surveyed, survey};
use sgm_recorders::{Meeting, ONE_AT_THREE, Recorder};
use sgm_report::RegionTally;
use sgm_work::{Gate, OpenGate};
use std::alloc::Global;
use std::test::Fail;
use std::thread::Threads;

/// The survey of the worked example's images over so many strips, whose workers pass the gate.
fn example<R: Threads + Sync, G: Gate + Sync>(
    rt: &R,
    alloc: Global,
    calib: &Calib,
    strips: u32,
    workers: u32,
    gate: &G,
) -> Result<Surveyed, Fail>
    requires strips { (1 ≤ strips) × (strips ≤ MAX_STRIPS) }
    requires workers { (1 ≤ workers) × (workers ≤ MAX_WORKERS) }
{
    let left = image_of_rows(alloc, &LEFT)?;
    let right = image_of_rows(alloc, &RIGHT)?;
    let found = survey(rt, alloc, &left, &right, calib, strips, workers, gate);
    Ok(found.ok().ok_or("survey")?)
}

/// Whether each of the three rows of a survey's map is this one.
fn has_map(found: &Surveyed, row: &[Option<u16>]) -> bool {
    let mut rows = found.disp.entries().chunks(5);
    rows.len() == 3 && rows.all(|entries| entries == row)
}

/// Whether a survey has a grid of three rows, each this one.
fn has_cells(found: &Surveyed, row: &[Option<i32>]) -> bool {
    let Some(grid) = &found.grid else {
        return false;
    };
    for y in 0..grid.spec().rows {
        if grid.row(y) != row {
            return false;
        }
    }
    grid.spec().rows == 3
}

/// Whether a survey has these tallies.
fn has_tallies(found: &Surveyed, wanted: &[RegionTally]) -> bool {
    match &found.tallies {
        Some(tallies) => tallies.as_slice() == wanted,
        None => false,
    }
}

/// A row of the map of the worked example: the indices 0, 0, 1, 1, 1.
const MAP: [Option<u16>; 5] = [Some(0), Some(0), Some(16), Some(16), Some(16)];

/// The height of its index 1, which lies at a depth of 100000, at x = 1000 * column and y = -1000 *
/// row. The index 0 has no point.
const HEIGHT: Option<i32> = Some(50_000);

/// The tallies of its two regions, of all cells and of one empty cell in the east.
const TALLIES: [RegionTally; 2] = [
    RegionTally {
        cells: 9,
        bridged: 0,
        empty: 3,
        fill: 90_000_000_000,
        cut: 0,
        lowest: HEIGHT,
        highest: HEIGHT,
    },
    RegionTally {
        cells: 0,
        bridged: 0,
        empty: 1,
        fill: 0,
        cut: 0,
        lowest: None,
        highest: None,
    },
];

/// Whether a survey is that of the worked example.
fn is_example(found: &Surveyed) -> bool {
    has_map(found, &MAP)
        && has_cells(found, &[HEIGHT, HEIGHT, HEIGHT, None])
        && has_tallies(found, &TALLIES)
}

/// Whether the survey of its images over so many strips, whose workers pass the gate, is that.
fn gives_example<R: Threads + Sync, G: Gate + Sync>(
    rt: &R,
    alloc: Global,
    calib: &Calib,
    strips: u32,
    workers: u32,
    gate: &G,
) -> Result<bool, Fail>
    requires strips { (1 ≤ strips) × (strips ≤ MAX_STRIPS) }
    requires workers { (1 ≤ workers) × (workers ≤ MAX_WORKERS) }
{
    let found = example(rt, alloc, calib, strips, workers, gate)?;
    Ok(is_example(&found))
}

#[test]
fn the_worked_example(rt: HostRuntime) -> Result<(), Fail> {
    let alloc = rt.alloc();
    let calib = calib(alloc, &[SETTINGS, CAMERA, GRID, REGIONS])?;
    for (strips, workers) in [(1, 1), (3, 2), (64, 16)] {
        assert!(rt; gives_example(&rt, alloc, &calib, strips, workers, &OpenGate)?);
    }
    Ok(())
}

#[test]
fn one_worker_goes_through_three_strips(rt: HostRuntime) -> Result<(), Fail> {
    let calib = calib(rt.alloc(), &[SETTINGS, CAMERA, GRID, REGIONS])?;
    let recorder = Recorder::new();
    assert!(rt; gives_example(&rt, rt.alloc(), &calib, 3, 1, &recorder)?);
    assert!(rt; recorder.has(&ONE_AT_THREE));
    Ok(())
}

#[test]
fn two_workers_overlap(rt: HostRuntime) -> Result<(), Fail> {
    let calib = calib(rt.alloc(), &[SETTINGS, CAMERA, GRID, REGIONS])?;
    let meeting = Meeting::of(2);
    assert!(rt; gives_example(&rt, rt.alloc(), &calib, 2, 2, &meeting)?);
    assert!(rt; meeting.has_met());
    Ok(())
}
