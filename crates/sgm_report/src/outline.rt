//! Which cells of a row an outline encloses, edge by edge.

ghost use Rattle.std.specs.Prelude.{◌≡◌, ◌+◌, ◌^◌, ◌<◌, ◌≤◌, ℕ, pos, ◌+ℤ◌, ◌-ℤ◌, ◌*ℤ◌, ◌<ℤ◌, All};
ghost use Rattle.std.specs.Prelude.{get_or, int_lt, length, map, nat_lt, not};
ghost use Rattle.std.specs.List.{range_with_len};
ghost use Rattle.sgm_base.specs.Ranges.{IsFromTo, Within};
ghost use Rattle.sgm_grid.specs.Cells.{IsGridSpec};
ghost use Rattle.sgm_grid.specs.declared.limits.TheConstants.{MAX_CELL};
ghost use Rattle.sgm_report.specs.Outlines.{IsCorner, IsOutline, centre_east, centre_north, edges};
ghost use Rattle.sgm_report.specs.Outlines.{encloses, is_reached, passes_east};

use crate::base::twice_way;
use sgm_grid::GridSpec;

/// The fewest corners of an outline.
pub const MIN_CORNERS: usize = 3;

/// The most corners of an outline.
pub const MAX_CORNERS: usize = 1000;

/// Some columns of a grid in one of its rows.
#[derive(Clone, Copy)]
pub(crate) struct RowPart {
    pub(crate) spec: GridSpec,
    /// The row, counted from the north.
    pub(crate) row: u32,
    /// The first column.
    pub(crate) col: u32,
}

/// Tells of each of some cells of a row, from a column of the grid on, whether the outline encloses
/// its centre.
pub(crate) fn mark_enclosed(corners: &[(i32, i32)], part: RowPart, inside: &mut [bool])
    requires ranges { IsGridSpec part.spec }
    requires row { part.row < part.spec.rows }
    requires columns { part.col + length inside.old ≤ part.spec.cols }
    requires outline { IsOutline corners.now }
    ensures { inside.new ≡ map
        (λ col. encloses corners.now (centre_east part.spec col) (centre_north part.spec part.row))
        (range_with_len part.col (length inside.old)) }
{
    inside.fill(false);
    for index in 0..corners.len() {
        let (from, to) = edge(corners, index);
        let west = columns_west(from, to, part, inside.len());
        turn(&mut inside[..west]);
    }
}

/// The edge of an outline from that one of its corners to the next, and from the last to the first.
fn edge(corners: &[(i32, i32)], index: usize) -> ((i32, i32), (i32, i32))
    requires index { index < length corners.now }
    requires corners { All IsCorner corners.now }
    ensures value { result ≡ get_or (edges corners.now) index result }
    ensures from { IsCorner result.0 }
    ensures to { IsCorner result.1 }
{
    if index + 1 < corners.len() {
        (corners[index], corners[index + 1])
    } else {
        (corners[index], corners[0])
    }
}

/// How many of the first `count` columns of a part of a row have their centre to the west of an
/// edge that straddles the row's centres; none where it doesn't.
fn columns_west(from: (i32, i32), to: (i32, i32), part: RowPart, count: usize) -> usize
    requires ranges { IsGridSpec part.spec }
    requires row { part.row < part.spec.rows }
    requires columns { part.col + count ≤ part.spec.cols }
    requires from { IsCorner from }
    requires to { IsCorner to }
    ensures few { result ≤ count }
    ensures value { (index : ℕ) → index < count
        → passes_east (centre_east part.spec (part.col + index))
        (centre_north part.spec part.row) (from, to) ≡ nat_lt index result }
{
    let (east, north) = centre(part);
    if is_reached(north, from) == is_reached(north, to) {
        0
    } else if from.1 < to.1 {
        columns_before(
            crossing(from, to, east, north),
            step(from, to, part.spec.cell),
            count,
        )
    } else {
        // An edge passes the same way downwards as upwards.
        columns_before(
            crossing(to, from, east, north),
            step(to, from, part.spec.cell),
            count,
        )
    }
}

/// The doubled centre of the first of those columns: so far to the east, and so far to the north.
fn centre(part: RowPart) -> (i64, i64)
    requires ranges { IsGridSpec part.spec }
    requires row { part.row < part.spec.rows }
    requires column { part.col ≤ part.spec.cols }
    ensures value { result ≡ (centre_east part.spec part.col, centre_north part.spec part.row) }
    ensures near_east { Within 10000000000000 result.0 }
    ensures near_north { Within 10000000000000 result.1 }
{
    let row = part.spec.rows - 1 - part.row;
    let east = 2 * part.spec.west + twice_way(part.spec.cell, part.col);
    let north = 2 * part.spec.south + twice_way(part.spec.cell, row);
    (east, north)
}

/// Whether a corner lies at that doubled north or to the south of it.
fn is_reached(north: i64, corner: (i32, i32)) -> bool
    ensures { result ≡ is_reached north corner }
{
    2 * i64::from(corner.1) <= north
}

/// How far to the east of a doubled place an edge that rises from `low` to `high` passes the
/// place's north, twice and times the edge's rise.
fn crossing(low: (i32, i32), high: (i32, i32), east: i64, north: i64) -> i128
    requires low { IsCorner low }
    requires high { IsCorner high }
    requires east { Within 10000000000000 east }
    requires north { Within 10000000000000 north }
    ensures value { result ≡ ((pos 2 *ℤ low.0 -ℤ east) *ℤ (high.1 -ℤ low.1))
        +ℤ ((north -ℤ pos 2 *ℤ low.1) *ℤ (high.0 -ℤ low.0)) }
    ensures near { Within (2 ^ 100) result }
{
    let run = i128::from(high.0) - i128::from(low.0);
    let rise = i128::from(high.1) - i128::from(low.1);
    let from_east = 2 * i128::from(low.0) - i128::from(east);
    let from_north = i128::from(north) - 2 * i128::from(low.1);
    from_east * rise + from_north * run
}

/// By how much less far that is from a cell's centre to the next one's.
fn step(low: (i32, i32), high: (i32, i32), cell: i64) -> i128
    requires low { IsCorner low }
    requires high { IsCorner high }
    requires rises { low.1 <ℤ high.1 }
    requires cell { IsFromTo (pos 1) MAX_CELL cell }
    ensures value { result ≡ (pos 2 *ℤ cell) *ℤ (high.1 -ℤ low.1) }
    ensures near { IsFromTo (pos 1) (pos (2 ^ 100)) result }
{
    2 * i128::from(cell) * (i128::from(high.1) - i128::from(low.1))
}

/// How many of the first `count` multiples of `step`, from 0 on, lie below that number.
fn columns_before(crossing: i128, step: i128, count: usize) -> usize
    requires crossing { Within (2 ^ 100) crossing }
    requires step { IsFromTo (pos 1) (pos (2 ^ 100)) step }
    ensures few { result ≤ count }
    ensures value { (index : ℕ) → index < count
        → int_lt (pos index *ℤ step) crossing ≡ nat_lt index result }
{
    let last = (crossing - 1).div_euclid(step);
    (last + 1).clamp(0, count as i128) as usize
}

/// Turns marks round.
fn turn(marks: &mut [bool])
    ensures { marks.new ≡ map not marks.old }
{
    for mark in marks.iter_mut() {
        *mark = !*mark;
    }
}
