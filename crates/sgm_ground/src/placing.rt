//! Points whose places in a grid are found side by side, row by row of the map, and whose heights
//! are added there after that, in the order of the pixels.

ghost use Rattle.std.specs.Prelude.{◌≡◌, ℕ, ◌+◌, ◌*◌, ◌<◌, ◌≤◌, All, IfOk, IfSome, fold, length};
ghost use Rattle.std.specs.Prelude.{option_and_then, slice_get, slice_index_or, None, Some};
ghost use Rattle.std.specs.List.{filter_map, range_with_len};
ghost use Rattle.sgm_base.specs.Values.{AtMost};
ghost use Rattle.sgm_base.specs.declared.limits.TheConstants.{MAX_DISPARITY, MAX_SIDE};
ghost use Rattle.sgm_grid.specs.Binning.{HasRoom, with_point};
ghost use Rattle.sgm_grid.specs.Placing.{IsPlaced, placed, spec_in, with_placed};
ghost use Rattle.sgm_ground.specs.Heights.{IsPlacedRow, point_at, points_of};

use crate::shown::{Shown, pixel_point};
use sgm_grid::{Bins, Placed};
use sgm_threads::side_by_side;
use std::alloc::{AllocError, Global};
use std::thread::Threads;

/// Where the point of a pixel falls, if it has one and that falls into the grid.
fn place_pixel(shown: &Shown, x: u32, y: u32, value: Option<u16>) -> Option<Placed>
    requires x { x < MAX_SIDE }
    requires y { y < MAX_SIDE }
    requires value { IfSome value (λ v. v ≤ MAX_DISPARITY) }
    ensures exact { result ≡ option_and_then (placed shown.now.spec)
        (option_and_then (point_at shown.now.station.now shown.now.span.first x y) value) }
    ensures within { IfSome result (IsPlaced shown.now.spec) }
{
    match pixel_point(shown, x, y, value) {
        None => None,
        Some(point) => shown.spec.placed(point),
    }
}

/// Where the points of a row of disparities fall, each in sixteenths from the first disparity of
/// the span on.
fn place_row(
    alloc: Global,
    shown: &Shown,
    y: u32,
    row: &[Option<u16>],
) -> Result<Vec<Placed>, AllocError>
    requires y { y < MAX_SIDE }
    requires width { length row.now ≤ MAX_SIDE }
    requires values { AtMost MAX_DISPARITY row.now }
    ensures exact { IfOk result (λ places. places.items ≡ filter_map (placed shown.now.spec)
        (filter_map (λ x. option_and_then (point_at shown.now.station.now shown.now.span.first x y)
        (slice_index_or row.now x None))
        (range_with_len 0 (length row.now)))) }
    ensures within { IfOk result (λ places. All (IsPlaced shown.now.spec) places.items) }
    ensures few { IfOk result (λ places. length places.items ≤ length row.now) }
{
    let mut places = Vec::with_capacity(alloc, row.len())?;
    for x in 0..row.len() {
        if let Some(placed) = place_pixel(shown, x as u32, y, row[x]) {
            places.push(placed)?;
        }
    }
    Ok(places)
}

/// Where the points of a row of the map fall; None where there is no memory.
fn row_at(alloc: Global, shown: &Shown, y: usize) -> Option<Vec<Placed>>
    requires { y < shown.now.map.now.height }
    ensures { IfSome result (λ places. IsPlacedRow shown.now.station.now shown.now.spec
        shown.now.span.first shown.now.map.now y places.items) }
{
    // Known from here on: that it has at most 4096 x 4096 pixels.
    let _size = shown.map.size();
    let row = shown.map.row(y as u32);
    place_row(alloc, shown, y as u32, row).ok()
}

/// Where the points of each row of the map fall, found by at most so many threads.
fn place_rows<R: Threads + Sync>(
    rt: &R,
    alloc: Global,
    shown: &Shown,
    threads: usize,
) -> Result<Vec<Vec<Placed>>, AllocError>
    requires { 0 < threads }
    ensures count { IfOk result (λ rows. length rows.items ≡ shown.now.map.now.height) }
    ensures placed { IfOk result (λ rows. (y : ℕ) (places : _)
        → slice_get rows.items y ≡ Some places
        → IsPlacedRow shown.now.station.now shown.now.spec shown.now.span.first shown.now.map.now
        y places.items) }
{
    let rows = shown.map.size().height as usize;
    side_by_side(rt, alloc, rows, threads, &|y| row_at(alloc, shown, y))
}

/// Adds heights to the cells at their places.
fn add_places(places: &[Placed], bins: &mut Bins)
    requires places { All (IsPlaced (spec_in bins.old)) places.now }
    requires room { HasRoom bins.old (length places.now) }
    ensures value { bins.new ≡ fold with_placed bins.old places.now }
    ensures spec { spec_in bins.new ≡ spec_in bins.old }
    ensures room { (more : ℕ) → HasRoom bins.old (more + length places.now)
        → HasRoom bins.new more }
{
    for at in 0..places.len() {
        bins.add_placed(places[at]);
    }
}

/// Adds the heights of all rows to the cells at their places.
#[tactic(auto, unfolding(crate::specs::Heights::points_of))]
fn add_rows(shown: &Shown, rows: &[Vec<Placed>], bins: &mut Bins)
    requires count { length rows.now ≡ shown.now.map.now.height }
    requires placed { (y : ℕ) (places : _) → slice_get rows.now y ≡ Some places
        → IsPlacedRow shown.now.station.now shown.now.spec shown.now.span.first shown.now.map.now
        y places.items }
    requires spec { spec_in bins.old ≡ shown.now.spec }
    requires room { HasRoom bins.old (shown.now.map.now.height * shown.now.map.now.width) }
    ensures { bins.new ≡ fold with_point bins.old
        (points_of shown.now.station.now shown.now.span.first shown.now.map.now) }
{
    for y in 0..rows.len() {
        add_places(&rows[y], bins);
    }
}

/// Adds the points of a map, whose places are found in at most so many threads. In between each
/// pixel takes 8 bytes at most.
pub(crate) fn add_shared<R: Threads + Sync>(
    rt: &R,
    alloc: Global,
    shown: &Shown,
    threads: usize,
    bins: &mut Bins,
) -> Result<(), AllocError>
    requires threads { 0 < threads }
    requires same { spec_in bins.old ≡ shown.now.spec }
    requires room { HasRoom bins.old (shown.now.map.now.height * shown.now.map.now.width) }
    ensures { IfOk result (λ _. bins.new ≡ fold with_point bins.old
        (points_of shown.now.station.now shown.now.span.first shown.now.map.now)) }
{
    let rows = place_rows(rt, alloc, shown, threads)?;
    add_rows(shown, &rows, bins);
    Ok(())
}
