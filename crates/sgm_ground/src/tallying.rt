//! A grid of heights with its bridges, and the tallies of regions over it.

ghost use Rattle.std.specs.Prelude.{◌≡◌, ◌≤◌, All, IfOk, IfSome, map, option_map};
ghost use Rattle.sgm_grid.specs.Bridges.{bridged};
ghost use Rattle.sgm_grid.specs.declared.limits.TheConstants.{MAX_BRIDGE};
ghost use Rattle.sgm_report.specs.Areas.{IsArea};
ghost use Rattle.sgm_report.specs.Tallies.{tally_of};
ghost use Rattle.sgm_ground.specs.Tallying.{region_tallies};

use sgm_grid::{Grid, bridge};
use sgm_report::{Region, RegionTally, tally};
use std::alloc::{AllocError, Global};

/// What is told of a grid of heights.
#[derive(Drop)]
pub struct Tallied {
    /// The grid with its bridges, in micrometres.
    pub grid: Grid,
    /// The tally of each region, in their order; None where no regions are asked for.
    pub tallies: Option<Vec<RegionTally>>,
}

/// The tally of each region of a grid with its bridges; `measured` is the grid without them.
fn tally_all(
    alloc: Global,
    grid: &Grid,
    measured: &Grid,
    regions: &[Region],
) -> Result<Vec<RegionTally>, AllocError>
    requires same { measured.now.spec ≡ grid.now.spec }
    requires regions { All (IsArea grid.now.spec) regions.now }
    ensures { IfOk result (λ tallies. tallies.items
        ≡ map (tally_of grid.now measured.now) regions.now) }
{
    let mut tallies = Vec::with_capacity(alloc, regions.len())?;
    for region in regions {
        let found = tally(alloc, grid, measured, region)?;
        tallies.push(found)?;
    }
    Ok(tallies)
}

/// The tallies of the regions, where these are asked for.
fn tallies_over(
    alloc: Global,
    grid: &Grid,
    measured: &Grid,
    regions: Option<&[Region]>,
) -> Result<Option<Vec<RegionTally>>, AllocError>
    requires same { measured.now.spec ≡ grid.now.spec }
    requires regions { IfSome regions (λ r. All (IsArea grid.now.spec) r.now) }
    ensures { IfOk result (λ t. option_map (λ v. v.items) t
        ≡ option_map (λ r. map (tally_of grid.now measured.now) r.now) regions.entry) }
{
    let Some(regions) = regions else {
        return Ok(None);
    };
    let tallies = tally_all(alloc, grid, measured, regions)?;
    Ok(Some(tallies))
}

/// A grid of heights, bridged over at most `most` cells to each side of an empty one, and not at
/// all for 0, and the tallies of regions over it. Err is want of memory.
pub fn tally_ground(
    alloc: Global,
    measured: Grid,
    most: u32,
    regions: Option<&[Region]>,
) -> Result<Tallied, AllocError>
    requires most { most ≤ MAX_BRIDGE }
    requires regions { IfSome regions (λ r. All (IsArea measured.spec) r.now) }
    ensures grid { IfOk result (λ found. found.grid ≡ bridged most measured) }
    ensures tallies { IfOk result (λ found. option_map (λ v. v.items) found.tallies
        ≡ option_map (λ r. region_tallies most measured r.now) regions.entry) }
{
    // Known from here on: that it has all its cells.
    let _spec = measured.spec();
    if most == 0 {
        let tallies = tallies_over(alloc, &measured, &measured, regions)?;
        return Ok(Tallied {
            grid: measured,
            tallies,
        });
    }
    let grid = bridge(alloc, &measured, most)?;
    let tallies = tallies_over(alloc, &grid, &measured, regions)?;
    Ok(Tallied { grid, tallies })
}
