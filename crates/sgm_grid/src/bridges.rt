//! Heights for empty cells, from those of the cells around them.

ghost use Rattle.std.specs.Prelude.{◌≡◌, ◌++◌, ◌*◌, ◌+◌, ◌-◌, ◌^◌, ◌<◌, ◌≤◌, ◌∷◌, [], pos, All};
ghost use Rattle.std.specs.Prelude.{IfOk, IfSome, None, OnOk, Some, filter_map, length, map};
ghost use Rattle.std.specs.Prelude.{slice_index_or, take};
ghost use Rattle.std.specs.List.{range_with_len};
ghost use Rattle.std.specs.Option.{ForSome};
ghost use Rattle.sgm_base.specs.Ranges.{IsFromTo, Within};
ghost use Rattle.sgm_base.specs.Rounding.{rounded};
ghost use Rattle.sgm_grid.specs.Beside.{cells_to};
ghost use Rattle.sgm_grid.specs.Bridges.{between, bridged, bridged_at, first_pier, is_gentle};
ghost use Rattle.sgm_grid.specs.Bridges.{span_height, spans_over};
ghost use Rattle.sgm_grid.specs.Cells.{IsCells, IsHeight};
ghost use Rattle.sgm_grid.specs.Keeping.{mean};
ghost use Rattle.sgm_grid.specs.declared.limits.TheConstants.{MAX_BRIDGE, MAX_CELL};

use crate::Grid;
use std::alloc::{AllocError, Global};
use std::marker::Model;

/// A height, and how many cells away it is.
#[derive(Clone, Copy)]
struct Pier {
    away: u32,
    height: i32,
}

impl Model for Pier {
    ghost use Rattle.sgm_grid.specs.Beside.{IsPier};
    ghost use Rattle.sgm_grid.specs.Bridges.{Pier};

    ghost Value = { Pier };

    ghost view = { λ p. record { away = p.away; height = p.height } };

    ghost inverse = { λ p. record { away = p.away; height = p.height } };

    ghost invariant = { λ p. IsPier (record { away = p.away; height = p.height }) };
}

/// A side of a cell.
#[derive(Clone, Copy)]
enum Side {
    West,
    East,
    North,
    South,
}

/// The grid with its bridges: an empty cell gets a height where its row or its column has heights
/// on both sides of it, each at most `most` cells away, that differ by no more than they lie apart;
/// the height between them there, and the mean of both where the row and the column give one. Only
/// heights of `grid` are read.
pub fn bridge(alloc: Global, grid: &Grid, most: u32) -> Result<Grid, AllocError>
    requires { most ≤ MAX_BRIDGE }
    ensures { IfOk result (λ made. made ≡ bridged most grid.now) }
{
    let spec = grid.spec();
    let mut heights = Vec::new(alloc);
    heights.try_reserve(spec.cols as usize * spec.rows as usize)?;
    for row in 0..spec.rows {
        append_row(grid, row, most, &mut heights)?;
    }
    Ok(Grid::of_heights(spec, heights))
}

/// Adds the heights of a row, from west to east, with its bridges.
fn append_row(
    grid: &Grid,
    row: u32,
    most: u32,
    into: &mut Vec<Option<i32>>,
) -> Result<(), AllocError>
    requires row_in { row < grid.now.spec.rows }
    requires most { most ≤ MAX_BRIDGE }
    requires in_range { All (λ height. ForSome height IsHeight) into.old.items }
    ensures value { OnOk result (into.new.items ≡ into.old.items
        ++ map (λ col. bridged_at most grid.now col row) (range_with_len 0 grid.now.spec.cols)) }
    ensures in_range { All (λ height. ForSome height IsHeight) into.new.items }
{
    for col in 0..grid.spec().cols {
        into.push(bridged_at(grid, col, row, most))?;
    }
    Ok(())
}

/// The height of a cell, or else the mean of what its row and its column give for it.
fn bridged_at(grid: &Grid, col: u32, row: u32, most: u32) -> Option<i32>
    requires col_in { col < grid.now.spec.cols }
    requires row_in { row < grid.now.spec.rows }
    requires most { most ≤ MAX_BRIDGE }
    ensures value { result ≡ bridged_at most grid.now col row }
    ensures in_range { IfSome result IsHeight }
{
    grid.get(col, row)
        .or_else(|| mean_span(grid, col, row, most))
}

/// The mean of the heights that the row and the column of a cell give for it.
fn mean_span(grid: &Grid, col: u32, row: u32, most: u32) -> Option<i32>
    requires col_in { col < grid.now.spec.cols }
    requires row_in { row < grid.now.spec.rows }
    requires most { most ≤ MAX_BRIDGE }
    ensures value { result ≡ mean (spans_over most grid.now col row) }
    ensures in_range { IfSome result IsHeight }
{
    let in_row = span(grid, col, row, most, Side::West, Side::East);
    let in_column = span(grid, col, row, most, Side::North, Side::South);
    mean(in_row, in_column)
}

/// The mean of one or two heights.
fn mean(one: Option<i32>, other: Option<i32>) -> Option<i32>
    requires one { ForSome one IsHeight }
    requires other { ForSome other IsHeight }
    ensures value { result ≡ mean (filter_map (λ height. height) (one ∷ other ∷ [])) }
    ensures in_range { IfSome result IsHeight }
{
    match (one, other) {
        (Some(one), Some(other)) => Some(rounded(one as i64 + other as i64, 2) as i32),
        (one, other) => one.or(other),
    }
}

/// What a bridge gives for a cell, from the first height on the one side to the first on the other.
/// In line, so that the loop over each side is one for that side alone.
#[inline(always)]
fn span(grid: &Grid, col: u32, row: u32, most: u32, before: Side, behind: Side) -> Option<i32>
    requires col_in { col < grid.now.spec.cols }
    requires row_in { row < grid.now.spec.rows }
    requires most { most ≤ MAX_BRIDGE }
    ensures value { result ≡ span_height grid.now.spec.cell
        (first_pier (take most (cells_to before grid.now col row)))
        (first_pier (take most (cells_to behind grid.now col row))) }
    ensures in_range { IfSome result IsHeight }
{
    let before = first_pier(grid, col, row, most, before)?;
    let behind = first_pier(grid, col, row, most, behind)?;
    span_height(grid.spec().cell, before, behind)
}

/// The height between two of them, by how far away each is, unless the bridge from one to the other
/// is too steep.
fn span_height(cell: i64, before: Pier, behind: Pier) -> Option<i32>
    requires { IsFromTo (pos 1) MAX_CELL cell }
    ensures value { result ≡ span_height cell (Some before) (Some behind) }
    ensures in_range { IfSome result IsHeight }
{
    if is_gentle(cell, before, behind) {
        Some(between(before, behind))
    } else {
        None
    }
}

/// Whether a bridge rises by no more than a cell's side from cell to cell.
fn is_gentle(cell: i64, before: Pier, behind: Pier) -> bool
    requires { IsFromTo (pos 1) MAX_CELL cell }
    ensures { result ≡ is_gentle cell before behind }
{
    let rise = before.height.abs_diff(behind.height);
    rise as i64 <= (before.away + behind.away) as i64 * cell
}

/// The height between two of them, by how far away each is.
fn between(before: Pier, behind: Pier) -> i32
    ensures value { result ≡ between before behind }
    ensures in_range { IsHeight result }
{
    let weighed = before.height as i64 * behind.away as i64
        + behind.height as i64 * before.away as i64;
    rounded(weighed, (before.away + behind.away) as i64) as i32
}

/// `a / b` rounded to the nearest whole number, halves upwards.
fn rounded(a: i64, b: i64) -> i64
    requires positive { IsFromTo (pos 1) (pos (2 * MAX_BRIDGE)) b }
    requires a_in_range { Within (2 ^ 60) a }
    ensures { result ≡ rounded a b }
{
    (2 * a + b).div_euclid(2 * b)
}

/// The first height on that side of a cell, at most `most` cells away.
#[inline(always)]
fn first_pier(grid: &Grid, col: u32, row: u32, most: u32, side: Side) -> Option<Pier>
    requires col_in { col < grid.now.spec.cols }
    requires row_in { row < grid.now.spec.rows }
    requires most { most ≤ MAX_BRIDGE }
    ensures { result ≡ first_pier (take most (cells_to side grid.now col row)) }
{
    let reach = cells_beside(grid, col, row, side).min(most);
    for away in 1..reach + 1 {
        if let Some(height) = height_beside(grid, col, row, side, away) {
            return Some(Pier { away, height });
        }
    }
    None
}

/// How many cells lie on that side of a cell.
#[inline(always)]
fn cells_beside(grid: &Grid, col: u32, row: u32, side: Side) -> u32
    requires col_in { col < grid.now.spec.cols }
    requires row_in { row < grid.now.spec.rows }
    ensures count { result ≡ length (cells_to side grid.now col row) }
    ensures kept { IsCells grid.now }
{
    let spec = grid.spec();
    match side {
        Side::West => col,
        Side::East => spec.cols - 1 - col,
        Side::North => row,
        Side::South => spec.rows - 1 - row,
    }
}

/// The height of the cell that lies `away` cells away on that side of a cell.
#[inline(always)]
fn height_beside(grid: &Grid, col: u32, row: u32, side: Side, away: u32) -> Option<i32>
    requires kept { IsCells grid.now }
    requires col_in { col < grid.now.spec.cols }
    requires row_in { row < grid.now.spec.rows }
    requires away { (1 ≤ away) × (away ≤ length (cells_to side grid.now col row)) }
    ensures value { result ≡ slice_index_or (cells_to side grid.now col row) (away - 1) None }
    ensures in_range { IfSome result IsHeight }
{
    match side {
        Side::West => grid.get(col - away, row),
        Side::East => grid.get(col + away, row),
        Side::North => grid.get(col, row - away),
        Side::South => grid.get(col, row + away),
    }
}
