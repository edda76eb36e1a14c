//! What follows from the definitions alone. Each function is a theorem: its clauses speak of every
//! grid and every region, and its body is empty.

ghost use Rattle.std.specs.Prelude.{◌≡◌, ◌+◌, ◌*◌, ◌≤◌, ℕ, ℤ, pos, List, None, length, reverse};
ghost use Rattle.sgm_grid.specs.Cells.{Cells};
ghost use Rattle.sgm_grid.specs.declared.grid_spec.GridSpec.{GridSpec};
ghost use Rattle.sgm_report.specs.Areas.{Area};
ghost use Rattle.sgm_report.specs.Bases.{base_at};
ghost use Rattle.sgm_report.specs.Outlines.{Corner, encloses};
ghost use Rattle.sgm_report.specs.Tallies.{IsHighest, IsLowest, heights_in, region_cells, tally_of};
ghost use Rattle.sgm_report.specs.declared.base.BasePlane.{BasePlane};

/// Each cell of a region is counted once, as one that has a height or as an empty one; without an
/// outline a region has the cells of all its columns in all its rows.
pub fn every_cell_counts()
    ensures once { (grid measured : Cells) (area : Area)
        → (tally_of grid measured area).cells + (tally_of grid measured area).empty
        ≡ length (region_cells grid measured area) }
    ensures rectangle { (grid measured : Cells) (area : Area) → area.outline ≡ None
        → (tally_of grid measured area).cells + (tally_of grid measured area).empty
        ≡ area.cols * area.rows }
{}

/// The bridged cells of a region are among those that have a height.
pub fn bridges_are_cells()
    ensures { (grid measured : Cells) (area : Area)
        → (tally_of grid measured area).bridged ≤ (tally_of grid measured area).cells }
{}

/// Where all heights were measured, no cell is bridged.
pub fn without_bridges()
    ensures { (grid : Cells) (area : Area) → (tally_of grid grid area).bridged ≡ 0 }
{}

/// The lowest and the highest are heights of the region's cells, and each of these lies from the
/// one to the other; where no cell has a height, there is neither.
pub fn ends_are_heights()
    ensures lowest { (grid measured : Cells) (area : Area)
        → IsLowest (heights_in (region_cells grid measured area))
        (tally_of grid measured area).lowest }
    ensures highest { (grid measured : Cells) (area : Area)
        → IsHighest (heights_in (region_cells grid measured area))
        (tally_of grid measured area).highest }
{}

/// The tally of a region all of whose cells are empty.
pub fn without_heights()
    ensures { (grid measured : Cells) (area : Area) → (tally_of grid measured area).cells ≡ 0
        → tally_of grid measured area
        ≡ record {
          cells = 0;
          bridged = 0;
          empty = length (region_cells grid measured area);
          fill = 0;
          cut = 0;
          lowest = None;
          highest = None;
        } }
{}

/// A base that rises neither to the east nor to the north is of the same height everywhere.
pub fn level_base()
    ensures { (spec : GridSpec) (base : BasePlane) (col row : ℕ) → base.rise_east ≡ pos 0
        → base.rise_north ≡ pos 0 → base_at spec base col row ≡ base.height }
{}

/// An outline encloses the same places whichever way round its corners are told.
pub fn outline_backwards()
    ensures { (corners : List Corner) (east north : ℤ)
        → encloses (reverse corners) east north ≡ encloses corners east north }
{}
