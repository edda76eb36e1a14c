//! Tallies of regions, and their names. The table's text is in the tests of `sgm_app`, and in
//! stored runs of `sgm_cases`.

ghost use Rattle.std.specs.Prelude.{IfSome, IsTrue, neg_ℤ};
ghost use Rattle.sgm_base.specs.Ranges.{IsFromTo};
ghost use Rattle.sgm_grid.specs.declared.limits.TheConstants.{MAX_PLACE};
ghost use Rattle.sgm_report.specs.Areas.{IsArea, LiesIn};
ghost use Rattle.sgm_report.specs.Bases.{IsBasePlane, IsRise};
ghost use Rattle.sgm_report.specs.Outlines.{IsOutline};

use crate::fixtures::grid_of;
use sgm_grid::{Grid, GridSpec, MAX_HEIGHT, MAX_PLACE, bridge};
use sgm_report::{
    BasePlane, MAX_CORNERS, MAX_NAME, MAX_RISE, MIN_CORNERS, Region, RegionTally, is_region_name,
    tally,
};
use std::alloc::{AllocError, Global};
use std::process::Abort;
use std::test::Fail;

/// One row of three cells with a side of 1000: 5, 7 and an empty one.
const ROW: &[u8] =
    b"ncols 3 nrows 1 xllcorner 0 yllcorner 0 cellsize 1000 nodata_value -2147483648 5 7 -2147483648";

/// Two columns and three rows of cells with a side of 1.
const ROWS: &[u8] =
    b"ncols 2 nrows 3 xllcorner 0 yllcorner 0 cellsize 1 nodata_value -2147483648 10 20 30 -2147483648 50 60";

/// One row of four cells with a side of 4, two of them empty.
const GAP: &[u8] =
    b"ncols 4 nrows 1 xllcorner 0 yllcorner 0 cellsize 4 nodata_value -2147483648 0 -2147483648 -2147483648 10";

/// A region of the name r.
fn region(
    alloc: Global,
    corner: (u32, u32),
    sides: (u32, u32),
    base: i64,
) -> Result<Region, AllocError> {
    Ok(Region {
        name: String::from_str(alloc, "r")?,
        col: corner.0,
        row: corner.1,
        cols: sides.0,
        rows: sides.1,
        base: BasePlane {
            height: base,
            rise_east: 0,
            rise_north: 0,
        },
        outline: None,
    })
}

fn lies_in(spec: GridSpec, region: &Region) -> bool
    ensures { IsTrue result → LiesIn spec region.now }
{
    region.cols >= 1
        && region.rows >= 1
        && region.col as u64 + region.cols as u64 <= spec.cols as u64
        && region.row as u64 + region.rows as u64 <= spec.rows as u64
}

fn is_rise(rise: i64) -> bool
    ensures { IsTrue result → IsRise rise }
{
    -MAX_RISE <= rise && rise <= MAX_RISE
}

fn is_base(base: BasePlane) -> bool
    ensures { IsTrue result → IsBasePlane base }
{
    -MAX_HEIGHT <= base.height
        && base.height <= MAX_HEIGHT
        && is_rise(base.rise_east)
        && is_rise(base.rise_north)
}

fn is_coordinate(along: i32) -> bool
    ensures { IsTrue result → IsFromTo (neg_ℤ MAX_PLACE) MAX_PLACE along }
{
    -MAX_PLACE <= i64::from(along) && i64::from(along) <= MAX_PLACE
}

fn is_outline(corners: &[(i32, i32)]) -> bool
    ensures { IsTrue result → IsOutline corners.now }
{
    MIN_CORNERS <= corners.len()
        && corners.len() <= MAX_CORNERS
        && corners.iter().all(|corner| is_coordinate(corner.0) && is_coordinate(corner.1))
}

fn has_outline(region: &Region) -> bool
    ensures { IsTrue result → IfSome region.now.outline IsOutline }
{
    match &region.outline {
        None => true,
        Some(corners) => is_outline(corners),
    }
}

fn is_area(grid: &Grid, region: &Region) -> bool
    ensures { IsTrue result → IsArea grid.now.spec region.now }
{
    let spec = grid.spec();
    is_region_name(region.name.as_str())
        && lies_in(spec, region)
        && is_base(region.base)
        && region.has_base(spec)
        && has_outline(region)
}

/// The tally of a region that lies in the grid, in which nothing is bridged.
fn tally_in(
    rt: &impl Abort,
    alloc: Global,
    grid: &Grid,
    region: &Region,
) -> Result<RegionTally, AllocError> {
    assert!(rt; is_area(grid, region));
    tally(alloc, grid, grid, region)
}

/// The tally of a region that lies in the grid, once it is bridged over two cells.
fn bridged_tally(
    rt: &impl Abort,
    alloc: Global,
    measured: &Grid,
    region: &Region,
) -> Result<RegionTally, AllocError> {
    let grid = bridge(alloc, measured, 2)?;
    assert!(rt; is_area(&grid, region));
    tally(alloc, &grid, measured, region)
}

/// Cells, empty ones, fill, cut, and the lowest and the highest height.
type Counts = (u64, u64, u128, u128, Option<(i32, i32)>);

/// A region's first column and row, its number of columns and of rows, its base, and its tally.
type Row = ((u32, u32), (u32, u32), i64, Counts);

/// That regions of the grid have these tallies.
fn assert_tallies(rt: &impl Abort, alloc: Global, grid: &Grid, table: &[Row]) -> Result<(), Fail> {
    for (corner, sides, base, want) in table {
        let part = region(alloc, *corner, *sides, *base)?;
        assert!(rt; tally_in(rt, alloc, grid, &part)? == counted(*want));
    }
    Ok(())
}

fn counted(counts: Counts) -> RegionTally {
    let (cells, empty, fill, cut, ends) = counts;
    RegionTally {
        cells,
        bridged: 0,
        empty,
        fill,
        cut,
        lowest: ends.map(|ends| ends.0),
        highest: ends.map(|ends| ends.1),
    }
}

/// The whole row with its base between its heights, and below them; one cell; an empty one. More
/// are cases of `sgm_cases`.
#[test]
fn bases_and_parts(rt: HostRuntime) -> Result<(), Fail> {
    let grid = grid_of(rt.alloc(), ROW)?;
    let table = &[
        (
            (0, 0),
            (3, 1),
            6,
            (2, 1, 1_000_000, 1_000_000, Some((5, 7))),
        ),
        ((0, 0), (3, 1), -10, (2, 1, 32_000_000, 0, Some((5, 7)))),
        ((1, 0), (1, 1), 6, (1, 0, 1_000_000, 0, Some((7, 7)))),
        ((2, 0), (1, 1), 6, (0, 1, 0, 0, None)),
    ];
    assert_tallies(&rt, rt.alloc(), &grid, table)
}

#[test]
fn rows_count_from_the_north(rt: HostRuntime) -> Result<(), Fail> {
    let grid = grid_of(rt.alloc(), ROWS)?;
    let table = &[
        ((0, 0), (2, 1), 0, (2, 0, 30, 0, Some((10, 20)))),
        ((0, 0), (1, 3), 30, (3, 0, 20, 20, Some((10, 50)))),
    ];
    assert_tallies(&rt, rt.alloc(), &grid, table)
}

/// Two of four cells are bridges; with them the heights are 0, 3, 7 and 10.
#[test]
fn bridges_are_counted(rt: HostRuntime) -> Result<(), Fail> {
    let alloc = rt.alloc();
    let measured = grid_of(alloc, GAP)?;
    let whole = region(alloc, (0, 0), (4, 1), 5)?;
    let found = bridged_tally(&rt, alloc, &measured, &whole)?;
    assert!(rt; (found.cells, found.bridged, found.empty) == (4, 2, 0));
    assert!(rt; (found.fill, found.cut) == (112, 112));
    Ok(())
}

/// A base that rises by a half towards the east is 1, 3, 5 and 7 on cells with a side of 4, and an
/// outline around the centres of the first two leaves the others out.
#[test]
fn a_slope_within_an_outline(rt: HostRuntime) -> Result<(), Fail> {
    let alloc = rt.alloc();
    let grid = grid_of(alloc, GAP)?;
    let mut part = region(alloc, (0, 0), (4, 1), 0)?;
    part.base.rise_east = 500_000;
    let found = tally_in(&rt, alloc, &grid, &part)?;
    assert!(rt; (found.cells, found.empty, found.fill, found.cut) == (2, 2, 48, 16));
    part.outline = Some(vec![in alloc; (0, 0), (7, 0), (7, 4), (0, 4)]?);
    let found = tally_in(&rt, alloc, &grid, &part)?;
    assert!(rt; (found.cells, found.empty, found.fill, found.cut) == (1, 1, 0, 16));
    Ok(())
}

#[test]
fn names(rt: HostRuntime) {
    for (name, want) in &[
        ("", false),
        ("North-East pit no. 89_b", true),
        ("a,b", false),
        ("\u{e9}", false),
    ] {
        assert!(rt; is_region_name(name) == *want);
    }
}

/// A name of 64 bytes is the longest.
#[test]
fn longest_name(rt: HostRuntime) {
    let name = "abcdefghijklmnopqrstuvwxyzABCDEFGHIJKLMNOPQRSTUVWXYZ01234567abcd";
    assert!(rt; name.len() == 64 && is_region_name(name));
    let longer = "abcdefghijklmnopqrstuvwxyzABCDEFGHIJKLMNOPQRSTUVWXYZ01234567abcde";
    assert!(rt; longer.len() == 65 && !is_region_name(longer));
}

// Contracts cite the limits by name, so that no clause says their values.
#[test]
fn limits_as_numbers(rt: HostRuntime) {
    assert!(rt; (MIN_CORNERS, MAX_CORNERS, MAX_RISE, MAX_NAME) == (3, 1000, 1_000_000, 64));
}
