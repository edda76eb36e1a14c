//! `cells COLS ROWS CELL KEEP BRIDGE | X,Y,H X,Y,H ..`: the heights of a grid whose west and south
//! sides are 0, once these points were added and its heights were bridged, row by row from the
//! north (see `rows`). CELL is the side of a cell, KEEP `highest` or `mean`, and BRIDGE over how
//! many cells heights are bridged; a case without points ends there. `tests/cells_cases.py` works
//! the answers out.

ghost use Rattle.std.specs.Prelude.{◌≡◌, ◌≤◌, ◌^◌, IfSome, IsTrue, length};
ghost use Rattle.sgm_base.specs.Ranges.{Within};
ghost use Rattle.sgm_base.specs.declared.limits.TheConstants.{MAX_GRID_LINES};
ghost use Rattle.sgm_grid.specs.Binning.{HasRoom, grid_in, most_points};
ghost use Rattle.sgm_grid.specs.Cells.{IsGridSpec, IsHeight};
ghost use Rattle.sgm_grid.specs.declared.limits.TheConstants.{MAX_BRIDGE};

use crate::parts::{cut, words_of};
use crate::rows::{cut_rows, push_values};
use sgm_base::{MAX_GRID_LINES, Point};
use sgm_grid::{Bins, Grid, GridSpec, Keep, MAX_BRIDGE, MAX_CELL, MAX_HEIGHT, bridge};
use std::alloc::{AllocError, Global};

/// How far to the east and to the north a point may lie.
const FARTHEST: i64 = 1_152_921_504_606_846_976;

/// The most points of a case.
pub const MAX_POINTS: usize = 1000;

/// What a case asks for, but for its points.
#[derive(Clone, Copy)]
struct Case {
    spec: GridSpec,
    keep: Keep,
    bridge: u32,
}

fn is_place(place: i64) -> bool
    ensures { IsTrue result → Within (2 ^ 60) place }
{
    -FARTHEST <= place && place <= FARTHEST
}

fn is_height(height: i64) -> bool
    ensures { IsTrue result → IsHeight height }
{
    -MAX_HEIGHT <= height && height <= MAX_HEIGHT
}

fn is_count(count: u32) -> bool
    ensures { IsTrue result → (1 ≤ count) × (count ≤ MAX_GRID_LINES) }
{
    1 <= count && count <= MAX_GRID_LINES
}

/// The grid of so many columns and rows at 0.
fn spec_of(cols: u32, rows: u32, cell: i64) -> Option<GridSpec>
    ensures { IfSome result IsGridSpec }
{
    if is_count(cols) && is_count(rows) && 1 <= cell && cell <= MAX_CELL {
        Some(GridSpec {
            west: 0,
            south: 0,
            cell,
            cols,
            rows,
        })
    } else {
        None
    }
}

/// The grid that three words tell, and what stands behind them.
fn read_spec(text: &str) -> Option<(GridSpec, &str)>
    ensures { IfSome result (λ read. IsGridSpec read.0) }
{
    let (cols, rest) = cut(text);
    let (rows, rest) = cut(rest);
    let (cell, rest) = cut(rest);
    let spec = spec_of(cols.parse().ok()?, rows.parse().ok()?, cell.parse().ok()?)?;
    Some((spec, rest))
}

fn read_keep(word: &str) -> Option<Keep> {
    match word {
        "highest" => Some(Keep::Highest),
        "mean" => Some(Keep::Mean),
        _ => None,
    }
}

fn read_bridge(word: &str) -> Option<u32>
    ensures { IfSome result (λ most. most ≤ MAX_BRIDGE) }
{
    let most: u32 = word.parse().ok()?;
    if most <= MAX_BRIDGE { Some(most) } else { None }
}

fn read_case(text: &str) -> Option<Case>
    ensures spec { IfSome result (λ case. IsGridSpec case.spec) }
    ensures bridge { IfSome result (λ case. case.bridge ≤ MAX_BRIDGE) }
{
    let (spec, rest) = read_spec(text)?;
    let (keep, rest) = cut(rest);
    Some(Case {
        spec,
        keep: read_keep(keep)?,
        bridge: read_bridge(rest)?,
    })
}

/// The point of these numbers, where they are in range.
fn point_of(x: i64, y: i64, h: i64) -> Option<Point>
    ensures height { IfSome result (λ p. IsHeight p.h) }
    ensures east { IfSome result (λ p. Within (2 ^ 60) p.x) }
    ensures north { IfSome result (λ p. Within (2 ^ 60) p.y) }
{
    if is_place(x) && is_place(y) && is_height(h) {
        Some(Point { x, y, h })
    } else {
        None
    }
}

/// The point that a word tells.
fn read_point(word: &str) -> Option<Point>
    ensures height { IfSome result (λ p. IsHeight p.h) }
    ensures east { IfSome result (λ p. Within (2 ^ 60) p.x) }
    ensures north { IfSome result (λ p. Within (2 ^ 60) p.y) }
{
    let (x, rest) = word.split_once(',')?;
    let (y, h) = rest.split_once(',')?;
    point_of(x.parse().ok()?, y.parse().ok()?, h.parse().ok()?)
}

/// Adds the points that these words tell, and answers whether each word is one.
pub fn add_points(bins: &mut Bins, words: &[String]) -> bool
    requires few { length words.now ≤ 1000 }
    requires room { HasRoom bins.old most_points }
    ensures { (grid_in bins.new).spec ≡ (grid_in bins.old).spec }
{
    for word in words {
        match read_point(word.as_str()) {
            Some(point) => bins.add(point),
            None => return false,
        }
    }
    true
}

/// The heights of all cells, row by row from the north.
fn heights_of(alloc: Global, grid: &Grid) -> Result<Vec<Option<i32>>, AllocError> {
    let mut heights = Vec::new(alloc);
    for row in 0..grid.spec().rows {
        heights.extend_from_slice(grid.row(row))?;
    }
    Ok(heights)
}

/// The text of the heights with their bridges.
fn heights_text(alloc: Global, bins: Bins, most: u32) -> Result<String, AllocError>
    requires { most ≤ MAX_BRIDGE }
{
    let bare = bins.grid(alloc)?;
    let grid = bridge(alloc, &bare, most)?;
    let mut text = String::new(alloc);
    push_values(&mut text, &heights_of(alloc, &grid)?)?;
    Ok(text)
}

fn text_of(alloc: Global, case: Case, words: &[String]) -> Result<String, AllocError>
    requires spec { IsGridSpec case.spec }
    requires bridge { case.bridge ≤ MAX_BRIDGE }
{
    let mut bins = Bins::make(alloc, case.spec, case.keep)?;
    if words.len() <= MAX_POINTS && add_points(&mut bins, words) {
        heights_text(alloc, bins, case.bridge)
    } else {
        String::from_str(alloc, "no such points")
    }
}

/// The answer to the case of that text.
pub fn answer(alloc: Global, case: &str) -> Result<String, AllocError> {
    let (numbers, points) = cut_rows(case);
    match read_case(numbers) {
        Some(case) => text_of(alloc, case, &words_of(alloc, points)?),
        None => String::from_str(alloc, "no such case"),
    }
}
