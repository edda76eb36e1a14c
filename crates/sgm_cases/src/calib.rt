//! `calib TEXT`: the calibration that the text is, or its first fault.
//!
//! The answer is `ok`, the least disparity and their number, the window's sides, `smoothed` where
//! costs are made so, the penalties, `adapt` where they follow the image, and then each warp, the
//! camera, `pose` with the nine numbers of its matrix by its rows and where it lies to the east, to
//! the north and upwards, the grid with what its cells keep and how far heights are bridged, and
//! the regions with their names and numbers, `rises` with both where the base rises, and `outline`
//! with its corners, where they are there, the camera and the grid field by field; or the fault
//! with its key's number, index and path. Of more than eight nodes, regions or corners the last
//! alone stands there, after their number.

use crate::escapes;
use sgm_base::Span;
use sgm_calib::{Calib, CalibError, CalibFault, Key, read};
use sgm_census::{CostRule, Window};
use sgm_energy::Pen;
use sgm_grid::{GridSpec, Gridding, Keep};
use sgm_height::{Axis, Camera, Pose};
use sgm_rectify::Warp;
use sgm_report::{BasePlane, Region};
use std::alloc::{AllocError, Global};
use std::fmt::Write;

/// As many nodes, regions or corners stand in an answer.
const MAX_SHOWN: usize = 8;

fn push_key(text: &mut String, fault: &str, key: Key) -> Result<(), AllocError> {
    let (number, index, front, back) = (key.number, key.index, key.front(), key.back());
    write!(text, "{fault} {number} {index} {front}")?;
    if key.has_index() {
        write!(text, "{index}{back}")
    } else {
        Ok(())
    }
}

fn push_fault(text: &mut String, fault: CalibFault) -> Result<(), AllocError> {
    match fault {
        CalibFault::Json => text.push_str("json"),
        CalibFault::Version => text.push_str("version"),
        CalibFault::Missing(key) => push_key(text, "missing", key),
        CalibFault::Unknown(key) => push_key(text, "unknown", key),
        CalibFault::Type_(key) => push_key(text, "type", key),
        CalibFault::Range(key) => push_key(text, "range", key),
    }
}

/// The nodes, regions or corners that are shown.
fn shown<T>(items: &[T]) -> &[T] {
    if items.len() <= MAX_SHOWN {
        items
    } else {
        items.get(items.len() - 1..).unwrap_or(&[])
    }
}

fn push_nodes(text: &mut String, nodes: &[(i32, i32)]) -> Result<(), AllocError> {
    let count = nodes.len();
    write!(text, " nodes {count}")?;
    for (u, v) in shown(nodes) {
        write!(text, " {u},{v}")?;
    }
    Ok(())
}

fn push_warp(text: &mut String, warp: &Warp) -> Result<(), AllocError> {
    match warp {
        Warp::Identity => text.push_str(" identity"),
        Warp::Projective(matrix) => {
            text.push_str(" projective")?;
            for entry in matrix {
                write!(text, " {entry}")?;
            }
            Ok(())
        }
        Warp::Mesh {
            step,
            cols,
            rows,
            nodes,
        } => {
            write!(text, " mesh {step} {cols} {rows}")?;
            push_nodes(text, nodes.as_slice())
        }
    }
}

fn push_region(text: &mut String, region: &Region) -> Result<(), AllocError> {
    let (name, col, row) = (region.name.as_str(), region.col, region.row);
    let (cols, rows, base) = (region.cols, region.rows, region.base.height);
    write!(text, " [{name}] {col} {row} {cols} {rows} {base}")?;
    push_rises(text, region.base)?;
    match &region.outline {
        None => Ok(()),
        Some(corners) => push_corners(text, corners),
    }
}

/// Adds how a base rises, where it does.
fn push_rises(text: &mut String, base: BasePlane) -> Result<(), AllocError> {
    let (east, north) = (base.rise_east, base.rise_north);
    if east == 0 && north == 0 {
        Ok(())
    } else {
        write!(text, " rises {east} {north}")
    }
}

fn push_corners(text: &mut String, corners: &[(i32, i32)]) -> Result<(), AllocError> {
    let count = corners.len();
    write!(text, " outline {count}")?;
    for (east, north) in shown(corners) {
        write!(text, " {east},{north}")?;
    }
    Ok(())
}

fn push_regions(text: &mut String, regions: &[Region]) -> Result<(), AllocError> {
    let count = regions.len();
    write!(text, " regions {count}")?;
    for region in shown(regions) {
        push_region(text, region)?;
    }
    Ok(())
}

fn push_sides(text: &mut String, span: Span, window: Window) -> Result<(), AllocError> {
    let (first, count, width, height) = (span.first, span.count, window.width, window.height);
    write!(text, "ok {first} {count} {width} {height}")
}

fn push_fine(text: &mut String, fine: bool) -> Result<(), AllocError> {
    if fine { text.push_str(" fine") } else { Ok(()) }
}

fn push_rule(text: &mut String, rule: CostRule) -> Result<(), AllocError> {
    match rule {
        CostRule::Plain => Ok(()),
        CostRule::Smoothed => text.push_str(" smoothed"),
    }
}

fn push_pen(text: &mut String, pen: Pen) -> Result<(), AllocError> {
    let (p1, p2) = (pen.p1(), pen.p2());
    let adapt = if pen.is_adaptive() { " adapt" } else { "" };
    write!(text, " {p1} {p2}{adapt}")
}

fn push_camera(text: &mut String, camera: Camera) -> Result<(), AllocError> {
    write!(text, " {camera:?}")
}

fn push_axis(text: &mut String, axis: Axis) -> Result<(), AllocError> {
    let (x, y, h) = (axis.x, axis.y, axis.h);
    write!(text, " {x} {y} {h}")
}

fn push_pose(text: &mut String, pose: Pose) -> Result<(), AllocError> {
    text.push_str(" pose")?;
    push_axis(text, pose.axes.east)?;
    push_axis(text, pose.axes.north)?;
    push_axis(text, pose.axes.up)?;
    let (east, north, up) = (pose.east, pose.north, pose.up);
    write!(text, " {east} {north} {up}")
}

fn push_grid(text: &mut String, grid: GridSpec) -> Result<(), AllocError> {
    write!(text, " {grid:?}")
}

fn push_gridding(text: &mut String, gridding: Gridding) -> Result<(), AllocError> {
    let keep = match gridding.keep {
        Keep::Highest => "highest",
        Keep::Mean => "mean",
    };
    let bridge = gridding.bridge;
    write!(text, " keep {keep} bridge {bridge}")
}

/// Adds what the calibration has of the ground.
fn push_ground(text: &mut String, calib: &Calib) -> Result<(), AllocError> {
    if let Some(camera) = calib.camera() {
        push_camera(text, camera)?;
    }
    if let Some(pose) = calib.pose() {
        push_pose(text, pose)?;
    }
    if let Some(grid) = calib.grid() {
        push_grid(text, grid)?;
        push_gridding(text, calib.gridding())?;
    }
    match calib.regions() {
        Some(regions) => push_regions(text, regions),
        None => Ok(()),
    }
}

fn push_calib(text: &mut String, calib: &Calib) -> Result<(), AllocError> {
    push_sides(text, calib.span(), calib.window())?;
    push_fine(text, calib.fine())?;
    push_rule(text, calib.rule())?;
    push_pen(text, calib.pen())?;
    push_warp(text, calib.left())?;
    push_warp(text, calib.right())?;
    push_ground(text, calib)
}

fn push_answer(alloc: Global, text: &mut String, bytes: &[u8]) -> Result<(), AllocError> {
    match read(alloc, bytes) {
        Ok(calib) => push_calib(text, &calib),
        Err(CalibError::Fault(fault)) => push_fault(text, fault),
        Err(CalibError::NoMemory) => text.push_str("out of memory"),
    }
}

/// The answer to the case of that text.
pub fn answer(alloc: Global, case: &str) -> Result<String, AllocError> {
    let bytes = escapes::unescaped(alloc, case)?;
    let mut text = String::new(alloc);
    push_answer(alloc, &mut text, &bytes)?;
    Ok(text)
}
