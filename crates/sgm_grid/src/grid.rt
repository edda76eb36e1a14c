ghost use Rattle.std.specs.Prelude.{◌≡◌, ◌++◌, ◌*◌, ◌^◌, ◌<◌, ◌<ℤ◌, pos, IfOk, IfSome, OnOk, OnErr};
ghost use Rattle.std.specs.Prelude.{All, length, count_by, is_some};
ghost use Rattle.std.specs.Option.{ForSome};
ghost use Rattle.std.specs.Int.{int_div_euclid};
ghost use Rattle.sgm_grid.specs.Cells.{IsGridSpec, IsCells, IsHeight, cells_of, height_at};
ghost use Rattle.sgm_grid.specs.Cells.{cell_index, row_of};
ghost use Rattle.sgm_base.specs.Ranges.{Within};
ghost use Rattle.sgm_grid.specs.Points.{added, cell_of, empty_grid, higher, index_below, raised_at};
ghost use Rattle.sgm_grid.specs.Placing.{IsPlaced};
ghost use Rattle.sgm_grid.specs.Text.{grid_text};

use crate::text::append_text;
use crate::{GridSpec, Placed};
use sgm_base::Point;
use std::alloc::{AllocError, Global};
use std::marker::Model;

/// The highest point of each cell, or None where a cell is empty, row by row from the north.
/// Heights are in micrometres, each within 2000000000 of 0.
#[derive(Drop)]
pub struct Grid {
    spec: GridSpec,
    heights: Vec<Option<i32>>,
}

impl Model for Grid {
    ghost use Rattle.sgm_grid.specs.Cells.{Cells, IsCells, cells_of};

    ghost Value = { Cells };

    ghost view = { λ g. cells_of g.spec g.heights.items };

    ghost invariant = { λ g. IsCells (cells_of g.spec g.heights.items) };
}

impl Grid {
    /// A grid in which every cell is empty.
    pub fn make(alloc: Global, spec: GridSpec) -> Result<Grid, AllocError>
        requires { IsGridSpec spec }
        ensures { IfOk result (λ g. g ≡ empty_grid spec) }
    {
        let cells = spec.cols as usize * spec.rows as usize;
        let heights = vec![in alloc; None; cells]?;
        Ok(Grid { spec, heights })
    }

    /// The grid of these ranges and these heights, row by row from the north.
    pub(crate) fn of_heights(spec: GridSpec, heights: Vec<Option<i32>>) -> Grid
        requires { IsCells (cells_of spec heights.items) }
        ensures { result ≡ cells_of spec heights.items }
    {
        Grid { spec, heights }
    }

    /// Where the grid lies and how it is cut.
    pub fn spec(&self) -> GridSpec
        ensures spec { result ≡ self.now.spec }
        ensures kept { IsCells self.now }
    {
        self.spec
    }

    /// The height of the cell in the column `col`, from the west, and the row `row`, from the
    /// north; None where it is empty.
    pub fn get(&self, col: u32, row: u32) -> Option<i32>
        requires col_in { col < self.now.spec.cols }
        requires row_in { row < self.now.spec.rows }
        ensures value { result ≡ height_at self.now col row }
        ensures in_range { IfSome result IsHeight }
    {
        self.heights[place(self.spec, col, row)]
    }

    /// The heights of the row `row`, counted from the north, from west to east.
    pub fn row(&self, row: u32) -> &[Option<i32>]
        requires { row < self.now.spec.rows }
        ensures value { result.now ≡ row_of self.now row }
        ensures whole { length result.now ≡ self.now.spec.cols }
        ensures in_range { All (λ height. ForSome height IsHeight) result.now }
    {
        let cols = self.spec.cols as usize;
        let start = row as usize * cols;
        &self.heights[start..start + cols]
    }

    /// How many cells have a height.
    pub fn filled(&self) -> usize
        ensures { result ≡ count_by is_some self.now.heights }
    {
        self.heights
            .iter()
            .filter(|height| height.is_some())
            .count()
    }

    /// The cell into which `p` falls keeps the highest; a point outside the grid changes nothing. A
    /// point on the west or the south side of a cell falls into it. Takes no memory.
    pub fn add(&mut self, p: Point)
        requires height { IsHeight p.h }
        requires east { Within (2 ^ 60) p.x }
        requires north { Within (2 ^ 60) p.y }
        ensures { self.new ≡ added self.old p }
    {
        if let Some(placed) = self.spec.placed(p) {
            self.add_placed(placed);
        }
    }

    /// The cell at a height's place keeps the higher.
    pub(crate) fn add_placed(&mut self, placed: Placed)
        requires { IsPlaced self.old.spec placed }
        ensures { self.new ≡ raised_at self.old placed.place placed.height }
    {
        let at = placed.place as usize;
        let highest = higher(self.heights[at], placed.height);
        self.heights[at] = Some(highest);
    }

    /// Adds the grid's text: six lines on its ranges, then a line for each row from the north, its
    /// heights with a space between each two, and -2147483648 for an empty cell. `into` is
    /// unchanged on Err.
    pub fn write_asc(&self, into: &mut Vec<u8>) -> Result<(), AllocError>
        ensures ok { OnOk result (into.new.items ≡ into.old.items ++ grid_text self.now) }
        ensures err { OnErr result (into.new.items ≡ into.old.items) }
    {
        let start = into.len();
        let written = append_text(self, into);
        if written.is_err() {
            into.truncate(start);
        }
        written
    }
}

/// The place of a cell in the list.
pub(crate) fn place(spec: GridSpec, col: u32, row: u32) -> usize
    requires ranges { IsGridSpec spec }
    requires col_in { col < spec.cols }
    requires row_in { row < spec.rows }
    ensures value { result ≡ cell_index spec col row }
    ensures within { result < spec.cols * spec.rows }
{
    row as usize * spec.cols as usize + col as usize
}

/// The column, and the row from the north, of the cell into which `p` falls; None outside the grid.
pub(crate) fn cell_of(spec: GridSpec, p: Point) -> Option<(u32, u32)>
    requires ranges { IsGridSpec spec }
    requires east { Within (2 ^ 60) p.x }
    requires north { Within (2 ^ 60) p.y }
    ensures value { result ≡ cell_of spec p }
    ensures within { IfSome result (λ cell. (cell.0 < spec.cols) × (cell.1 < spec.rows)) }
{
    let col = line_of(p.x - spec.west, spec.cell, spec.cols)?;
    let south = line_of(p.y - spec.south, spec.cell, spec.rows)?;
    Some((col, spec.rows - 1 - south))
}

/// The column or row that lies `distance` from the grid's side; None outside the grid.
fn line_of(distance: i64, cell: i64, count: u32) -> Option<u32>
    requires cell { pos 0 <ℤ cell }
    ensures value { result ≡ index_below count (int_div_euclid distance cell) }
    ensures within { IfSome result (λ n. n < count) }
{
    let line = distance.div_euclid(cell);
    if line >= 0 && line < count as i64 {
        Some(line as u32)
    } else {
        None
    }
}

/// The greater of what was held and a height, or the height where nothing was held.
pub fn higher(held: Option<i32>, height: i32) -> i32
    ensures value { result ≡ higher held height }
    ensures in_range { ForSome held IsHeight → IsHeight height → IsHeight result }
{
    match held {
        Some(held) => held.max(height),
        None => height,
    }
}
