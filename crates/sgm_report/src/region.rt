ghost use Rattle.std.specs.Prelude.{◌≡◌, ◌+◌, ◌<◌, map, length};
ghost use Rattle.std.specs.List.{list_all};
ghost use Rattle.sgm_grid.specs.Cells.{IsGridSpec};
ghost use Rattle.sgm_report.specs.Areas.{IsArea, LiesIn, has_base, is_name_byte, is_region_name};
ghost use Rattle.sgm_report.specs.Areas.{lies_inside};
ghost use Rattle.sgm_report.specs.Bases.{IsBasePlane};
ghost use Rattle.sgm_report.specs.Tallies.{cols_of};

use crate::base::{BasePlane, is_height};
use crate::outline::{RowPart, mark_enclosed};
use sgm_grid::GridSpec;
use std::marker::Model;

/// The most bytes of a region's name.
pub const MAX_NAME: usize = 64;

/// A named rectangle of cells of a grid, the plane from which its volumes are counted, and the
/// outline that bounds it within the rectangle.
#[derive(Drop)]
pub struct Region {
    /// What the report calls it.
    pub name: String,
    /// Its westernmost column.
    pub col: u32,
    /// Its northernmost row, counted from the north.
    pub row: u32,
    /// The number of its columns.
    pub cols: u32,
    /// The number of its rows.
    pub rows: u32,
    /// What counts as 0.
    pub base: BasePlane,
    /// The corners of its outline, each so many micrometres to the east and to the north in the
    /// grid's frame; None where all cells of the rectangle count.
    pub outline: Option<Vec<(i32, i32)>>,
}

impl Model for Region {
    ghost use Rattle.std.specs.Prelude.{option_map, string_bytes};
    ghost use Rattle.sgm_report.specs.Areas.{Area};

    ghost Value = { Area };

    ghost view = { λ r. record {
      name = string_bytes r.name;
      col = r.col;
      row = r.row;
      cols = r.cols;
      rows = r.rows;
      base = r.base;
      outline = option_map (λ v. v.items) r.outline;
    } };
}

impl Region {
    /// Whether the base is in the range of a height at each of the region's cells. Takes no memory.
    #[tactic(auto, unfolding(crate::specs::Areas::has_base))]
    pub fn has_base(&self, spec: GridSpec) -> bool
        requires ranges { IsGridSpec spec }
        requires inside { LiesIn spec self.now }
        requires base { IsBasePlane self.now.base }
        ensures { result ≡ has_base spec self.now }
    {
        let east = self.col + self.cols - 1;
        let south = self.row + self.rows - 1;
        let corners = [
            self.base.at(spec, self.col, self.row),
            self.base.at(spec, east, self.row),
            self.base.at(spec, self.col, south),
            self.base.at(spec, east, south),
        ];
        corners.iter().all(|height| is_height(*height))
    }

    /// Tells of each of the region's cells in that row of the grid, from west to east, whether it
    /// lies inside the outline.
    pub(crate) fn mark_inside(&self, spec: GridSpec, row: u32, inside: &mut [bool])
        requires ranges { IsGridSpec spec }
        requires region { IsArea spec self.now }
        requires row { row < spec.rows }
        requires length { length inside.old ≡ self.now.cols }
        ensures { inside.new
            ≡ map (λ col. lies_inside spec self.now.outline col row) (cols_of self.now) }
    {
        match &self.outline {
            None => inside.fill(true),
            Some(corners) => {
                let part = RowPart {
                    spec,
                    row,
                    col: self.col,
                };
                mark_enclosed(corners, part, inside);
            }
        }
    }
}

/// Whether a region may have that name: 1 to 64 bytes, each an ASCII letter, a digit, a space, `_`,
/// `-` or `.`. Takes no memory.
pub fn is_region_name(name: &str) -> bool
    ensures { result ≡ is_region_name name.now }
{
    let bytes = name.as_bytes();
    1 <= bytes.len() && bytes.len() <= MAX_NAME && are_name_bytes(bytes)
}

/// Whether each of those bytes may stand in a name.
fn are_name_bytes(bytes: &[u8]) -> bool
    ensures { result ≡ list_all is_name_byte bytes.now }
{
    bytes.iter().all(|byte| is_name_byte(*byte))
}

/// Whether that byte may stand in a name.
fn is_name_byte(byte: u8) -> bool
    ensures { result ≡ is_name_byte byte }
{
    byte.is_ascii_alphanumeric() || byte == b' ' || byte == b'_' || byte == b'-' || byte == b'.'
}
