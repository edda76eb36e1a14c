ghost use Rattle.std.specs.Prelude.{◌≡◌, ◌+◌, ◌*◌, ◌<◌, ◌≤◌, pos, ◌*ℤ◌};
ghost use Rattle.sgm_base.specs.Ranges.{IsFromTo};
ghost use Rattle.sgm_base.specs.declared.limits.TheConstants.{MAX_GRID_LINES};
ghost use Rattle.sgm_grid.specs.Cells.{IsGridSpec};
ghost use Rattle.sgm_grid.specs.declared.limits.TheConstants.{MAX_CELL};
ghost use Rattle.sgm_report.specs.Bases.{IsBasePlane, base_at, is_height};

use sgm_base::round_div;
use sgm_grid::{GridSpec, MAX_HEIGHT};

/// How much a base rises at most, in micrometres a metre: one in one.
pub const MAX_RISE: i64 = 1_000_000;

/// Twice as many micrometres as a metre has: ways are told doubled, as a cell's centre may lie half
/// a micrometre from a whole one.
const TWO_METRES: i128 = 2_000_000;

/// The plane from which the volumes of a region are counted.
#[derive(Clone, Copy, Debug, PartialEq, Eq)]
pub struct BasePlane {
    /// The height at the grid's south-west corner, in micrometres.
    pub height: i64,
    /// How much it rises towards the east, in micrometres a metre.
    pub rise_east: i64,
    /// How much it rises towards the north, in micrometres a metre.
    pub rise_north: i64,
}

impl BasePlane {
    /// The plane at the centre of the cell in that column and in that row from the north, in
    /// micrometres, rounded, halves upwards.
    #[tactic(auto, unfolding(crate::specs::Bases::base_at))]
    pub fn at(self, spec: GridSpec, col: u32, row: u32) -> i64
        requires ranges { IsGridSpec spec }
        requires base { IsBasePlane self }
        requires col { col < spec.cols }
        requires row { row < spec.rows }
        ensures { result ≡ base_at spec self col row }
    {
        if self.rise_east == 0 && self.rise_north == 0 {
            return self.height;
        }
        let row = spec.rows - 1 - row;
        let east = self.rise_east * twice_way(spec.cell, col);
        let north = self.rise_north * twice_way(spec.cell, row);
        let rise = round_div(i128::from(east) + i128::from(north), TWO_METRES);
        self.height + rise as i64
    }
}

/// Twice the way from a grid's first side to the middle of that line of its cells.
pub(crate) fn twice_way(cell: i64, line: u32) -> i64
    requires line { line ≤ MAX_GRID_LINES }
    requires cell { IsFromTo (pos 1) MAX_CELL cell }
    ensures { result ≡ pos (2 * line + 1) *ℤ cell }
{
    (2 * i64::from(line) + 1) * cell
}

/// Whether that is in the range of a height.
pub(crate) fn is_height(height: i64) -> bool
    ensures { result ≡ is_height height }
{
    -MAX_HEIGHT <= height && height <= MAX_HEIGHT
}
