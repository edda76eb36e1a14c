//! Points that fall into cells. The texts of grids are stored cases of `sgm_cases`.

ghost use Rattle.std.specs.Prelude.{◌^◌, IsTrue};
ghost use Rattle.sgm_base.specs.Ranges.{Within};
ghost use Rattle.sgm_grid.specs.Cells.{IsHeight};

use sgm_base::Point;
use sgm_grid::{Grid, GridSpec, MAX_BRIDGE, MAX_CELL, MAX_HEIGHT, MAX_PLACE, NO_HEIGHT};
use std::alloc::{AllocError, Global};
use std::process::Abort;
use std::test::Fail;

/// Cells of 10, three columns from 100 and two rows from -20.
const SMALL: GridSpec = GridSpec {
    west: 100,
    south: -20,
    cell: 10,
    cols: 3,
    rows: 2,
};

/// How far to the east and to the north a point may lie.
const FARTHEST: i64 = 1_152_921_504_606_846_976;

fn is_place(place: i64) -> bool
    ensures { IsTrue result → Within (2 ^ 60) place }
{
    -FARTHEST <= place && place <= FARTHEST
}

fn is_height(height: i64) -> bool
    ensures { IsTrue result → IsHeight height }
{
    -MAX_HEIGHT <= height && height <= MAX_HEIGHT
}

/// Adds a point whose numbers are in range.
fn add_point(rt: &impl Abort, grid: &mut Grid, point: (i64, i64, i64)) {
    let (x, y, h) = point;
    assert!(rt; is_place(x) && is_place(y) && is_height(h));
    grid.add(Point { x, y, h });
}

/// The small grid to which points, each with its x, y and h, are added one after another.
fn small_with(
    rt: &impl Abort,
    alloc: Global,
    points: &[(i64, i64, i64)],
) -> Result<Grid, AllocError> {
    let mut grid = Grid::make(alloc, SMALL)?;
    for point in points {
        add_point(rt, &mut grid, *point);
    }
    Ok(grid)
}

/// Whether the small grid has these heights in its row in the north and in that in the south, once
/// these points were added.
fn has_heights(
    rt: &impl Abort,
    alloc: Global,
    points: &[(i64, i64, i64)],
    north: &[Option<i32>],
    south: &[Option<i32>],
) -> Result<bool, AllocError> {
    let grid = small_with(rt, alloc, points)?;
    Ok(grid.spec() == SMALL && grid.row(0) == north && grid.row(1) == south)
}

/// A point on the west or south side of a cell falls into it.
#[test]
fn sides_of_cells(rt: HostRuntime) -> Result<(), Fail> {
    let points = &[
        (100, -20, 1),
        (110, -20, 2),
        (129, -11, 3),
        (100, -10, 4),
        (119, -1, 5),
    ];
    let (north, south) = (&[Some(4), Some(5), None], &[Some(1), Some(2), Some(3)]);
    assert!(rt; has_heights(&rt, rt.alloc(), points, north, south)?);
    Ok(())
}

/// One on the east or north side of the grid is outside.
#[test]
fn points_outside_change_nothing(rt: HostRuntime) -> Result<(), Fail> {
    let points = &[
        (99, -15, 1),
        (130, -15, 1),
        (115, -21, 1),
        (115, 0, 1),
        (-FARTHEST, -15, 1),
        (FARTHEST, FARTHEST, 1),
    ];
    assert!(rt; has_heights(&rt, rt.alloc(), points, &[None; 3], &[None; 3])?);
    Ok(())
}

/// Two points in one cell, in each order, and heights of both signs.
#[test]
fn cells_keep_the_highest(rt: HostRuntime) -> Result<(), Fail> {
    let points = &[
        (101, -19, 7),
        (102, -18, 5),
        (111, -19, 5),
        (112, -18, 7),
        (121, -19, -2_000_000_000),
        (122, -19, -1_999_999_999),
        (101, -9, 2_000_000_000),
    ];
    let north = &[Some(2_000_000_000), None, None];
    let south = &[Some(7), Some(7), Some(-1_999_999_999)];
    assert!(rt; has_heights(&rt, rt.alloc(), points, north, south)?);
    Ok(())
}

// Contracts cite the limits by name, so that no clause says their values.
#[test]
fn limits_as_numbers(rt: HostRuntime) {
    assert!(rt; (MAX_PLACE, MAX_CELL, MAX_BRIDGE) == (2_000_000_000, 1_000_000_000, 8));
    assert!(rt; (MAX_HEIGHT, NO_HEIGHT) == (2_000_000_000, -2_147_483_648));
}
