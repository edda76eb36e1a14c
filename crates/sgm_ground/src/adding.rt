//! From the disparities to the grid of heights.

ghost use Rattle.std.specs.Prelude.{◌≡◌, ℕ, ◌+◌, ◌*◌, ◌≤◌, ◌<◌, IfOk, fold, length};
ghost use Rattle.std.specs.Prelude.{option_and_then, slice_index_or, None};
ghost use Rattle.std.specs.List.{filter_map, range_with_len};
ghost use Rattle.sgm_base.specs.Values.{AtMost};
ghost use Rattle.sgm_base.specs.declared.limits.TheConstants.{MAX_DISPARITY, MAX_SIDE};
ghost use Rattle.sgm_grid.specs.Binning.{HasRoom, with_point};
ghost use Rattle.sgm_grid.specs.Keeping.{gridded};
ghost use Rattle.sgm_ground.specs.Heights.{point_at, points_of};

use crate::placing::add_shared;
use crate::shown::{Shown, pixel_point};
use sgm_grid::{Bins, Grid, Keep};
use std::alloc::{AllocError, Global};
use std::thread::Threads;

/// Adds the points of a row of disparities, each in sixteenths from the first disparity of the span
/// on.
fn add_row(shown: &Shown, y: u32, row: &[Option<u16>], bins: &mut Bins)
    requires y { y < MAX_SIDE }
    requires width { length row.now ≤ MAX_SIDE }
    requires values { AtMost MAX_DISPARITY row.now }
    requires room { HasRoom bins.old (length row.now) }
    ensures value { bins.new ≡ fold with_point bins.old
        (filter_map (λ x. option_and_then (point_at shown.now.station.now shown.now.span.first x y)
        (slice_index_or row.now x None))
        (range_with_len 0 (length row.now))) }
    ensures room { (more : ℕ) → HasRoom bins.old (more + length row.now) → HasRoom bins.new more }
{
    for x in 0..row.len() {
        if let Some(found) = pixel_point(shown, x as u32, y, row[x]) {
            bins.add(found);
        }
    }
}

/// Adds the points of a map of disparities.
#[tactic(auto, unfolding(crate::specs::Heights::points_of))]
fn add_points(shown: &Shown, bins: &mut Bins)
    requires { HasRoom bins.old (shown.now.map.now.height * shown.now.map.now.width) }
    ensures { bins.new ≡ fold with_point bins.old
        (points_of shown.now.station.now shown.now.span.first shown.now.map.now) }
{
    for y in 0..shown.map.size().height {
        add_row(shown, y, shown.map.row(y), bins);
    }
}

/// The grid of a map of disparities: of each cell what it keeps of the points that fall into it.
/// They are added in at most so many threads. One takes no memory for that.
pub fn heights<R: Threads + Sync>(
    rt: &R,
    alloc: Global,
    shown: &Shown,
    keep: Keep,
    threads: usize,
) -> Result<Grid, AllocError>
    requires threads { 0 < threads }
    ensures { IfOk result (λ grid. grid ≡ gridded keep shown.now.spec
        (points_of shown.now.station.now shown.now.span.first shown.now.map.now)) }
{
    // Known from here on: that it has at most 4096 x 4096 pixels.
    let _size = shown.map.size();
    let mut bins = Bins::make(alloc, shown.spec, keep)?;
    if threads > 1 {
        add_shared(rt, alloc, shown, threads, &mut bins)?;
        return bins.grid(alloc);
    }
    add_points(shown, &mut bins);
    bins.grid(alloc)
}
