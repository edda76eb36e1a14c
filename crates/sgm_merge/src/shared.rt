//! The columns or the rows that two grids on the same cells share.

ghost use Rattle.std.specs.Prelude.{◌≡◌, ◌≤◌, ◌<◌, ℕ, pos, neg_ℤ, ◌-ℤ◌, true};
ghost use Rattle.std.specs.Int.{int_div_euclid};
ghost use Rattle.sgm_base.specs.Ranges.{IsFromTo, Within};
ghost use Rattle.sgm_base.specs.declared.limits.TheConstants.{MAX_GRID_LINES};
ghost use Rattle.sgm_grid.specs.declared.limits.TheConstants.{MAX_CELL, MAX_PLACE};
ghost use Rattle.sgm_grid.specs.Cells.{IsGridSpec};
ghost use Rattle.sgm_grid.specs.Points.{cell_of, index_below};
ghost use Rattle.sgm_merge.specs.Fits.{fits};
ghost use Rattle.sgm_merge.specs.Merged.{corner};
ghost use Rattle.sgm_merge.specs.Sharing.{AreLines, both, line_in};

use sgm_grid::GridSpec;

/// Lines, columns or rows, that two grids have in common: `count` of them, from `first` on in the
/// one and from `entry_first` on in the other.
#[derive(Clone, Copy)]
pub(crate) struct Shared {
    pub(crate) first: u32,
    pub(crate) entry_first: u32,
    pub(crate) count: u32,
}

/// What `lines` lines share with `entry_lines` others, the first of which lies `shift` lines behind
/// the first of those.
pub(crate) fn shared_lines(lines: u32, entry_lines: u32, shift: i64) -> Shared
    requires lines { lines ≤ MAX_GRID_LINES }
    requires entry_lines { entry_lines ≤ MAX_GRID_LINES }
    requires shift { Within 5000000000 shift }
    ensures inside { AreLines lines entry_lines result }
    ensures lines { (line : ℕ) → line < lines
        → index_below entry_lines (pos line -ℤ shift) ≡ line_in result line }
{
    if shift < 0 {
        let entry_first = (-shift).min(entry_lines as i64) as u32;
        return Shared {
            first: 0,
            entry_first,
            count: lines.min(entry_lines - entry_first),
        };
    }
    let first = shift.min(lines as i64) as u32;
    Shared {
        first,
        entry_first: 0,
        count: entry_lines.min(lines - first),
    }
}

/// The columns and the rows, counted from the north, that a grid of the ranges `spec` shares with
/// one of the ranges `entry`.
pub(crate) fn sharing(spec: GridSpec, entry: GridSpec) -> (Shared, Shared)
    requires spec { IsGridSpec spec }
    requires entry { IsGridSpec entry }
    requires fits { fits spec entry ≡ true }
    ensures cols { AreLines spec.cols entry.cols result.0 }
    ensures rows { AreLines spec.rows entry.rows result.1 }
    ensures cells { (col row : ℕ) → row < spec.rows → col < spec.cols
        → cell_of entry (corner spec col row) ≡ both (line_in result.0 col) (line_in result.1 row) }
{
    let east = cells_between(spec.cell, spec.west, entry.west);
    let north = cells_between(spec.cell, spec.south, entry.south);
    let south_of_top = spec.rows as i64 - entry.rows as i64 - north;
    (
        shared_lines(spec.cols, entry.cols, east),
        shared_lines(spec.rows, entry.rows, south_of_top),
    )
}

/// How many whole cells a side lies away from another.
fn cells_between(cell: i64, from: i64, side: i64) -> i64
    requires cell { IsFromTo (pos 1) MAX_CELL cell }
    requires from { IsFromTo (neg_ℤ MAX_PLACE) MAX_PLACE from }
    requires side { IsFromTo (neg_ℤ MAX_PLACE) MAX_PLACE side }
    ensures value { result ≡ int_div_euclid (side -ℤ from) cell }
    ensures near { Within 4000000000 result }
{
    (side - from).div_euclid(cell)
}
