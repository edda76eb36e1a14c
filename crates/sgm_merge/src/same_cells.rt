//! Whether the cells of two grids are the same.

ghost use Rattle.std.specs.Prelude.{◌≡◌, neg_ℤ, pos};
ghost use Rattle.sgm_base.specs.Ranges.{IsFromTo};
ghost use Rattle.sgm_grid.specs.declared.limits.TheConstants.{MAX_CELL, MAX_PLACE};
ghost use Rattle.sgm_grid.specs.Cells.{IsGridSpec};
ghost use Rattle.sgm_merge.specs.Fits.{fits, is_whole};

use sgm_grid::GridSpec;

/// Whether a grid of the ranges `entry` stands on the cells of one of the ranges `spec`: the cells
/// of both have the same side, and the west sides and the south sides lie whole cells apart. How
/// many columns and rows they have, and where they lie, is free.
pub fn fits(spec: GridSpec, entry: GridSpec) -> bool
    requires spec { IsGridSpec spec }
    requires entry { IsGridSpec entry }
    ensures { result ≡ fits spec entry }
{
    entry.cell == spec.cell
        && is_whole(spec.cell, spec.west, entry.west)
        && is_whole(spec.cell, spec.south, entry.south)
}

/// Whether two sides lie whole cells apart.
fn is_whole(cell: i64, from: i64, side: i64) -> bool
    requires cell { IsFromTo (pos 1) MAX_CELL cell }
    requires from { IsFromTo (neg_ℤ MAX_PLACE) MAX_PLACE from }
    requires side { IsFromTo (neg_ℤ MAX_PLACE) MAX_PLACE side }
    ensures { result ≡ is_whole cell from side }
{
    (side - from).rem_euclid(cell) == 0
}
