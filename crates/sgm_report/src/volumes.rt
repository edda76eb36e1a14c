ghost use Rattle.std.specs.Prelude.{◌≡◌, ◌+◌, ◌<◌, ◌≤◌, ◌++◌, ◌∷◌, [], ℕ, pos, List, All, IfOk};
ghost use Rattle.std.specs.Prelude.{length, map};
ghost use Rattle.std.specs.Option.{ForSome};
ghost use Rattle.sgm_grid.specs.Cells.{IsGridSpec, IsHeight, height_at};
ghost use Rattle.sgm_base.specs.Ranges.{IsFromTo};
ghost use Rattle.sgm_grid.specs.declared.limits.TheConstants.{MAX_CELL};
ghost use Rattle.sgm_report.specs.Areas.{IsArea, LiesIn, lies_inside};
ghost use Rattle.sgm_report.specs.Sums.{HasRoom, lower, sums_over};
ghost use Rattle.sgm_report.specs.Tallies.{cols_of, region_cells, row_cells, tally_of, tally_over};
ghost use Rattle.sgm_report.specs.declared.volumes.RegionCell.{RegionCell};

use crate::Region;
use sgm_grid::{Grid, higher};
use std::alloc::{AllocError, Global};

/// What the cells of a region amount to. Heights are in micrometres, volumes in cubic micrometres.
#[derive(Clone, Copy, PartialEq, Eq)]
pub struct RegionTally {
    /// The number of cells that have a height.
    pub cells: u64,
    /// The number of those that have a height by a bridge alone.
    pub bridged: u64,
    /// The number of cells that are empty.
    pub empty: u64,
    /// The volume above the base.
    pub fill: u128,
    /// The volume that is missing below the base.
    pub cut: u128,
    /// The lowest height, or None where no cell has one.
    pub lowest: Option<i32>,
    /// The highest height, or None where no cell has one.
    pub highest: Option<i32>,
}

/// A cell of a region: its height, if it has one, whether it has one without bridges, and the base
/// below it.
#[derive(Clone, Copy)]
struct RegionCell {
    height: Option<i32>,
    measured: bool,
    base: i64,
}

/// What some cells amount to, before heights are multiplied by the ground that a cell covers.
#[derive(Clone, Copy)]
struct Sums {
    cells: u64,
    bridged: u64,
    empty: u64,
    above: u64,
    below: u64,
    lowest: Option<i32>,
    highest: Option<i32>,
}

/// A grid with its bridges, and the same one without them.
#[derive(Clone, Copy)]
struct Layers<'a> {
    grid: &'a Grid,
    measured: &'a Grid,
}

/// The tally of a region's cells, of those within its outline where it has one: how many have a
/// height, how many of those by a bridge alone, and how many are empty, the volume above the base
/// and the volume that is missing below it, and the lowest and the highest height. `grid` is the
/// grid with its bridges and `measured` the one without them; where nothing is bridged, both are
/// the same. Memory is taken for a byte for each of the region's columns.
pub fn tally(
    alloc: Global,
    grid: &Grid,
    measured: &Grid,
    region: &Region,
) -> Result<RegionTally, AllocError>
    requires region { IsArea grid.now.spec region.now }
    requires same { measured.now.spec ≡ grid.now.spec }
    ensures { IfOk result (λ tally. tally ≡ tally_of grid.now measured.now region.now) }
{
    let spec = grid.spec();
    let mut inside = vec![in alloc; false; region.cols as usize]?;
    let sums = sums_of(&Layers { grid, measured }, region, &mut inside);
    Ok(sums.over(spec.cell))
}

/// The sums of a region's cells. `inside` is room for a mark for each of its columns.
fn sums_of(layers: &Layers, region: &Region, inside: &mut [bool]) -> Sums
    requires ranges { IsGridSpec layers.now.grid.now.spec }
    requires region { IsArea layers.now.grid.now.spec region.now }
    requires same { layers.now.measured.now.spec ≡ layers.now.grid.now.spec }
    requires length { length inside.old ≡ region.now.cols }
    ensures value { result
        ≡ sums_over (region_cells layers.now.grid.now layers.now.measured.now region.now) }
    ensures room { HasRoom result 0 }
{
    let mut sums = no_sums();
    for row in region.row..region.row + region.rows {
        region.mark_inside(layers.grid.spec(), row, inside);
        sums = sums.with_row(layers, region, row, inside);
    }
    sums
}

/// The heights of a region's cells in that row of the grid, from west to east.
fn row_of<'a>(grid: &'a Grid, region: &Region, row: u32) -> &'a [Option<i32>]
    requires inside { LiesIn grid.now.spec region.now }
    requires row { row < grid.now.spec.rows }
    ensures value { result.now ≡ map (λ col. height_at grid.now col row) (cols_of region.now) }
    ensures whole { length result.now ≡ region.now.cols }
    ensures in_range { All (λ height. ForSome height IsHeight) result.now }
{
    let west = region.col as usize;
    let east = west + region.cols as usize;
    &grid.row(row)[west..east]
}

/// Of no cells.
fn no_sums() -> Sums
    ensures { result ≡ sums_over [] }
{
    Sums {
        cells: 0,
        bridged: 0,
        empty: 0,
        above: 0,
        below: 0,
        lowest: None,
        highest: None,
    }
}

impl Sums {
    /// Of the cells of a row besides that are marked as inside.
    fn with_row(self, layers: &Layers, region: &Region, row: u32, inside: &[bool]) -> Sums
        requires ranges { IsGridSpec layers.now.grid.now.spec }
        requires region { IsArea layers.now.grid.now.spec region.now }
        requires same { layers.now.measured.now.spec ≡ layers.now.grid.now.spec }
        requires row { (region.now.row ≤ row) × (row < region.now.row + region.now.rows) }
        requires inside { inside.now ≡ map
            (λ col. lies_inside layers.now.grid.now.spec region.now.outline col row)
            (cols_of region.now) }
        requires room { HasRoom self region.now.cols }
        ensures value { (cells : List RegionCell) → self ≡ sums_over cells → result ≡ sums_over
            (cells ++ row_cells layers.now.grid.now layers.now.measured.now region.now row) }
        ensures room { (left : ℕ) → HasRoom self (left + region.now.cols) → HasRoom result left }
    {
        let spec = layers.grid.spec();
        let heights = row_of(layers.grid, region, row);
        let measured = row_of(layers.measured, region, row);
        let mut sums = self;
        for index in 0..inside.len() {
            if inside[index] {
                sums = sums.with_cell(RegionCell {
                    height: heights[index],
                    measured: measured[index].is_some(),
                    base: region.base.at(spec, region.col + index as u32, row),
                });
            }
        }
        sums
    }

    /// Of one cell besides.
    fn with_cell(self, cell: RegionCell) -> Sums
        requires base { IsHeight cell.base }
        requires height { ForSome cell.height IsHeight }
        requires room { HasRoom self 1 }
        ensures value { (cells : List RegionCell) → self ≡ sums_over cells
            → result ≡ sums_over (cells ++ cell ∷ []) }
        ensures room { (left : ℕ) → HasRoom self (left + 1) → HasRoom result left }
    {
        match cell.height {
            None => Sums {
                empty: self.empty + 1,
                ..self
            },
            Some(height) => {
                let over = height as i64 - cell.base;
                Sums {
                    cells: self.cells + 1,
                    bridged: self.bridged + !cell.measured as u64,
                    empty: self.empty,
                    above: self.above + over.max(0) as u64,
                    below: self.below + (-over).max(0) as u64,
                    lowest: Some(lower(self.lowest, height)),
                    highest: Some(higher(self.highest, height)),
                }
            }
        }
    }

    /// The tally where a cell has that side.
    fn over(self, side: i64) -> RegionTally
        requires side { IsFromTo (pos 1) MAX_CELL side }
        requires room { HasRoom self 0 }
        ensures { (cells : List RegionCell) → self ≡ sums_over cells
            → result ≡ tally_over side cells }
    {
        let square = side as u128 * side as u128;
        RegionTally {
            cells: self.cells,
            bridged: self.bridged,
            empty: self.empty,
            fill: self.above as u128 * square,
            cut: self.below as u128 * square,
            lowest: self.lowest,
            highest: self.highest,
        }
    }
}

/// The lesser of what was held and a height.
fn lower(held: Option<i32>, height: i32) -> i32
    ensures { result ≡ lower held height }
{
    match held {
        Some(held) => held.min(height),
        None => height,
    }
}
