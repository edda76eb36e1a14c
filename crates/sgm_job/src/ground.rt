//! What a survey says of the ground: the grid of heights, and the tallies of its regions.

ghost use Rattle.std.specs.Prelude.{◌≡◌, ◌<◌, IfOk, option_map};
ghost use Rattle.sgm_base.specs.Values.{AtMost};
ghost use Rattle.sgm_base.specs.declared.limits.TheConstants.{MAX_DISPARITY};
ghost use Rattle.sgm_job.specs.Survey.{ground, tallies};

use sgm_base::DispMap;
use sgm_calib::Calib;
use sgm_grid::Grid;
use sgm_ground::{Shown, heights, tally_ground};
use sgm_report::RegionTally;
use std::alloc::{AllocError, Global};
use std::thread::Threads;

/// The grid with its bridges, where one is asked for, and the tallies of its regions, where these
/// are.
#[derive(Drop)]
pub(crate) struct Ground {
    pub(crate) grid: Option<Grid>,
    pub(crate) tallies: Option<Vec<RegionTally>>,
}

/// The ground that a map of disparities shows, where the calibration has a camera and a grid. Its
/// points are added in at most so many threads.
pub(crate) fn ground_of<R: Threads + Sync>(
    rt: &R,
    alloc: Global,
    calib: &Calib,
    map: &DispMap,
    threads: usize,
) -> Result<Ground, AllocError>
    requires threads { 0 < threads }
    requires values { AtMost MAX_DISPARITY map.now.entries }
    ensures grid { IfOk result (λ found. found.grid ≡ ground calib.now map.now) }
    ensures tallies { IfOk result
        (λ found. option_map (λ v. v.items) found.tallies ≡ tallies calib.now map.now) }
{
    let (Some(station), Some(spec)) = (calib.station(), calib.grid()) else {
        return Ok(Ground {
            grid: None,
            tallies: None,
        });
    };
    let gridding = calib.gridding();
    let shown = Shown {
        station: &station,
        span: calib.span(),
        map,
        spec,
    };
    let measured = heights(rt, alloc, &shown, gridding.keep, threads)?;
    let tallied = tally_ground(alloc, measured, gridding.bridge, calib.regions())?;
    Ok(Ground {
        grid: Some(tallied.grid),
        tallies: tallied.tallies,
    })
}
