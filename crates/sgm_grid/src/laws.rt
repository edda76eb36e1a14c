//! What follows from the definitions alone. Each function is a theorem: its clauses speak of every
//! grid and every list of points, and its body is empty.

ghost use Rattle.std.specs.Prelude.{◌≡◌, List, Ok, fold};
ghost use Rattle.std.specs.List.{filter_map};
ghost use Rattle.sgm_base.specs.declared.point.Point.{Point};
ghost use Rattle.sgm_grid.specs.declared.grid_spec.GridSpec.{GridSpec};
ghost use Rattle.sgm_grid.specs.declared.keep.Keep.{Keep};
ghost use Rattle.sgm_grid.specs.Asc.{asc_reading};
ghost use Rattle.sgm_grid.specs.Binning.{Binned, grid_in, no_points, with_point};
ghost use Rattle.sgm_grid.specs.Cells.{Cells, IsCells, IsGridSpec};
ghost use Rattle.sgm_grid.specs.Bridges.{bridged};
ghost use Rattle.sgm_grid.specs.Keeping.{gridded};
ghost use Rattle.sgm_grid.specs.Placing.{placed, spec_in, with_placed};
ghost use Rattle.sgm_grid.specs.Text.{grid_text};

/// After the points of a list were added one by one, in any order, each cell holds what it keeps of
/// the heights of the points that fall into it, or is empty where there is none.
pub fn points_are_kept()
    ensures { (keep : Keep) (spec : GridSpec) (points : List Point) → IsGridSpec spec
        → grid_in (fold with_point (no_points keep spec) points) ≡ gridded keep spec points }
{}

/// Points whose places are found first, and whose heights are added there after that in the points'
/// order, leave what they leave when they are added one by one.
pub fn points_are_placed()
    ensures { (bins : Binned) (points : List Point)
        → fold with_placed bins (filter_map (placed (spec_in bins)) points)
        ≡ fold with_point bins points }
{}

/// Where nothing is bridged, a grid stays as it is.
pub fn without_bridges()
    ensures { (grid : Cells) → IsCells grid → bridged 0 grid ≡ grid }
{}

/// What is written of a grid is read again as that grid.
pub fn written_is_read()
    ensures { (grid : Cells) → IsCells grid → asc_reading (grid_text grid) ≡ Ok grid }
{}
