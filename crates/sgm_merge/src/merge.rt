//! Merging grids.

ghost use Rattle.std.specs.Prelude.{◌≡◌, ◌+◌, ◌*◌, ◌≤◌, ◌<◌, ◌==◌, ◌&&◌, ◌^◌, ◌+ℤ◌, ◌*ℤ◌, ℕ, All};
ghost use Rattle.std.specs.Prelude.{IfOk, None, Some, pos, neg_ℤ, length, slice_index_or, true};
ghost use Rattle.std.specs.Prelude.{if◌then◌else◌};
ghost use Rattle.std.specs.Option.{ForSome};
ghost use Rattle.sgm_base.specs.Ranges.{IsFromTo, Within};
ghost use Rattle.sgm_base.specs.declared.limits.TheConstants.{MAX_GRID_LINES};
ghost use Rattle.sgm_grid.specs.declared.limits.TheConstants.{MAX_CELL, MAX_PLACE};
ghost use Rattle.sgm_grid.specs.Cells.{IsGridSpec, IsHeight, height_at};
ghost use Rattle.sgm_merge.specs.Fits.{fits};
ghost use Rattle.sgm_merge.specs.Merged.{height_over};
ghost use Rattle.sgm_merge.specs.Merging.{grid_in, held_at, no_entries, with_entry};
ghost use Rattle.sgm_merge.specs.Sharing.{from_place};
ghost use Rattle.sgm_merge.specs.Tallies.{kept_of, no_heights, with_cell};
ghost use Rattle.sgm_merge.specs.declared.limits.TheConstants.{MAX_ENTRIES};

use crate::shared::sharing;
use crate::tally::Tally;
use sgm_base::Point;
use sgm_grid::{Grid, GridSpec, Keep};
use std::alloc::{AllocError, Global};
use std::marker::Model;

/// The heights of at most [`MAX_ENTRIES`] grids on their way into the cells of one, in 16 bytes a
/// cell. No grid is kept.
///
/// [`MAX_ENTRIES`]: crate::MAX_ENTRIES
#[derive(Drop)]
pub struct Merge {
    keep: Keep,
    spec: GridSpec,
    entries: u32,
    tallies: Vec<Tally>,
}

impl Model for Merge {
    ghost use Rattle.sgm_merge.specs.Merging.{IsMerging, Merging, merging_of};

    ghost Value = { Merging };

    ghost view = { λ m. merging_of m.keep m.spec m.entries m.tallies.items };

    ghost invariant = { λ m. IsMerging (merging_of m.keep m.spec m.entries m.tallies.items) };
}

impl Merge {
    /// A grid of the ranges `spec` into which no grid was merged.
    pub fn make(alloc: Global, spec: GridSpec, keep: Keep) -> Result<Merge, AllocError>
        requires { IsGridSpec spec }
        ensures { IfOk result (λ merge. merge ≡ no_entries keep spec) }
    {
        let cells = spec.cols as usize * spec.rows as usize;
        let tallies = vec![in alloc; Tally::none(); cells]?;
        Ok(Merge {
            keep,
            spec,
            entries: 0,
            tallies,
        })
    }

    /// Where the merged grid lies and how it is cut.
    pub fn spec(&self) -> GridSpec
        ensures spec { result ≡ self.now.spec }
        ensures ranges { IsGridSpec self.now.spec }
    {
        self.spec
    }

    /// Adds a grid whose cells are those of the merged one: each cell of that gets the height that
    /// `entry` has there, if it has one. What lies outside is left out. Takes no memory.
    pub fn add(&mut self, entry: &Grid)
        requires fits { fits self.old.spec entry.now.spec ≡ true }
        requires room { self.old.entries < MAX_ENTRIES }
        ensures { self.new ≡ with_entry self.old entry.now }
    {
        add_cells(self.spec, entry, &mut self.tallies);
        self.entries += 1;
    }

    /// The merged grid: what each cell keeps of the heights that the grids have there.
    pub fn grid(self, alloc: Global) -> Result<Grid, AllocError>
        ensures { IfOk result (λ grid. grid ≡ grid_in self) }
    {
        let mut grid = Grid::make(alloc, self.spec)?;
        for row in 0..self.spec.rows {
            self.write_row(row, &mut grid);
        }
        Ok(grid)
    }

    /// Gives the cells of a row what they keep.
    fn write_row(&self, row: u32, grid: &mut Grid)
        requires row_in { row < self.now.spec.rows }
        requires spec { grid.old.spec ≡ self.now.spec }
        requires empty { (col : ℕ) → col < self.now.spec.cols → height_at grid.old col row ≡ None }
        ensures spec { grid.new.spec ≡ self.now.spec }
        ensures len { length grid.new.heights ≡ length grid.old.heights }
        ensures cells { (col line : ℕ) → col < self.now.spec.cols → line < self.now.spec.rows
            → height_at grid.new col line ≡ (if row == line
            then kept_of self.now.keep (held_at self.now.spec self.now.held col line)
            else height_at grid.old col line) }
    {
        for col in 0..self.spec.cols {
            let at = row as usize * self.spec.cols as usize + col as usize;
            if let Some(height) = self.tallies[at].kept(self.keep) {
                write_height(grid, col, row, height);
            }
        }
    }
}

/// Gives an empty cell a height.
fn write_height(grid: &mut Grid, col: u32, row: u32, height: i32)
    requires col_in { col < grid.old.spec.cols }
    requires row_in { row < grid.old.spec.rows }
    requires empty { height_at grid.old col row ≡ None }
    requires height { IsHeight height }
    ensures spec { grid.new.spec ≡ grid.old.spec }
    ensures len { length grid.new.heights ≡ length grid.old.heights }
    ensures cells { (c r : ℕ) → c < grid.old.spec.cols → r < grid.old.spec.rows
        → height_at grid.new c r ≡ (if (col == c) && (row == r) then Some height
        else height_at grid.old c r) }
{
    let spec = grid.spec();
    grid.add(Point {
        x: side_of(spec.cell, spec.west, col),
        y: side_of(spec.cell, spec.south, spec.rows - 1 - row),
        h: height as i64,
    });
}

/// The west or the south side of a column or a row, counted from the west or the south.
fn side_of(cell: i64, from: i64, line: u32) -> i64
    requires cell { IsFromTo (pos 1) MAX_CELL cell }
    requires from { IsFromTo (neg_ℤ MAX_PLACE) MAX_PLACE from }
    requires line { line < MAX_GRID_LINES }
    ensures value { result ≡ from +ℤ (pos line *ℤ cell) }
    ensures near { Within (2 ^ 60) result }
{
    from + line as i64 * cell
}

/// Adds the heights of a grid to what the cells of one of the ranges `spec` hold.
fn add_cells(spec: GridSpec, entry: &Grid, tallies: &mut [Tally])
    requires spec { IsGridSpec spec }
    requires fits { fits spec entry.now.spec ≡ true }
    requires full { length tallies.old ≡ spec.cols * spec.rows }
    requires room { All (λ held. held.count < MAX_ENTRIES) tallies.old }
    ensures len { length tallies.new ≡ length tallies.old }
    ensures cells { (col row : ℕ) → col < spec.cols → row < spec.rows
        → held_at spec tallies.new col row
        ≡ with_cell (held_at spec tallies.old col row) (height_over spec entry.now col row) }
{
    let (cols, rows) = sharing(spec, entry.spec());
    let first = cols.entry_first as usize;
    for index in 0..rows.count {
        let heights = entry.row(rows.entry_first + index);
        let at = (rows.first + index) as usize * spec.cols as usize + cols.first as usize;
        add_heights(&heights[first..first + cols.count as usize], at, tallies);
    }
}

/// Adds each of some heights to what a cell holds, from the place `at` on.
fn add_heights(heights: &[Option<i32>], at: usize, tallies: &mut [Tally])
    requires inside { at + length heights.now ≤ length tallies.old }
    requires in_range { All (λ height. ForSome height IsHeight) heights.now }
    requires room { (k : ℕ) → k < length heights.now
        → (slice_index_or tallies.old (at + k) no_heights).count < MAX_ENTRIES }
    ensures len { length tallies.new ≡ length tallies.old }
    ensures cells { (place : ℕ) → slice_index_or tallies.new place no_heights
        ≡ with_cell (slice_index_or tallies.old place no_heights)
        (from_place at heights.now place) }
{
    for index in 0..heights.len() {
        if let Some(height) = heights[index] {
            tallies[at + index] = tallies[at + index].with(height);
        }
    }
}
