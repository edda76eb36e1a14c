ghost use Rattle.std.specs.Prelude.{◌≡◌, ◌^◌, IfSome};
ghost use Rattle.sgm_base.specs.Ranges.{Within};
ghost use Rattle.sgm_grid.specs.Cells.{IsGridSpec, IsHeight};
ghost use Rattle.sgm_grid.specs.Placing.{IsPlaced, placed};

use crate::GridSpec;
use crate::grid::{cell_of, place};
use sgm_base::Point;

/// The height of a point, and the cell of a grid into which it falls.
#[derive(Clone, Copy)]
pub struct Placed {
    /// How many cells stand before that one, row by row from the north.
    pub place: u32,
    /// In micrometres, within 2000000000 of 0.
    pub height: i32,
}

impl GridSpec {
    /// Where a point falls, and its height; None outside the grid. A point on the west or the south
    /// side of a cell falls into it.
    pub fn placed(self, p: Point) -> Option<Placed>
        requires ranges { IsGridSpec self }
        requires height { IsHeight p.h }
        requires east { Within (2 ^ 60) p.x }
        requires north { Within (2 ^ 60) p.y }
        ensures value { result ≡ placed self p }
        ensures within { IfSome result (IsPlaced self) }
    {
        match cell_of(self, p) {
            None => None,
            Some((col, row)) => Some(Placed {
                place: place(self, col, row) as u32,
                height: p.h as i32,
            }),
        }
    }
}
