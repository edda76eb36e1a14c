ghost use Rattle.std.specs.Prelude.{◌≡◌, ℕ, ◌+◌, ◌*◌, ◌/◌, ◌%◌, ◌<◌, ◌≤◌, IfOk, Some, None, length};
ghost use Rattle.std.specs.Prelude.{slice_index, slice_index_or, EachIndex};
ghost use Rattle.sgm_rectify.specs.Faults.{Suits};
ghost use Rattle.sgm_rectify.specs.Rectified.{sides_of, rectified, rectified_values};

use crate::Warp;
use crate::bilinear::bilinear;
use sgm_base::{Image, Plane};
use std::alloc::{AllocError, Global};
use std::thread::{Threads, for_each_chunk_mut};

/// Writes the samples of the row `y`.
fn copy_row(image: &Image, y: u32, into: &mut [Option<u16>])
    requires row { y < image.now.height }
    requires whole { length into.old ≡ image.now.width }
    ensures { (x : ℕ) → x < image.now.width
        → slice_index_or into.new x None
        ≡ Some (slice_index image.now.samples (y * image.now.width + x)) }
{
    let size = image.size();
    let at = y as usize * size.width as usize;
    let samples = image.samples();
    for x in 0..into.len() {
        into[x] = Some(samples[at + x]);
    }
}

/// Where the next place would be, if it were as far from the last as that from the one before.
#[inline]
fn further(before: i64, last: i64) -> i64 {
    last.wrapping_add(last.wrapping_sub(before))
}

/// Writes the row `y`, each value from its place.
fn warp_row(image: &Image, warp: &Warp, y: u32, into: &mut [Option<u16>])
    requires warp { Suits warp.now (sides_of image.now) }
    requires row { y < image.now.height }
    requires whole { length into.old ≡ image.now.width }
    ensures { (x : ℕ) → x < image.now.width
        → slice_index_or into.new x None ≡ rectified image.now warp.now x y }
{
    let width = image.size().width;
    let (mut before, mut near) = ((0, 0), (0, 0));
    for x in 0..width {
        let (u, v) = warp.place_near(x, y, near);
        into[x as usize] = bilinear(image, u, v);
        // Neighbours lie nearly as far from each other all along a row.
        near = (further(before.0, u), further(before.1, v));
        before = (u, v);
    }
}

/// Writes the row `y` of the rectified image: for each pixel the bilinear value of the source at
/// the pixel's place, or None where a neighbour of non-zero weight lies outside the source. Takes
/// no memory.
pub fn rectify_row(image: &Image, warp: &Warp, y: u32, into: &mut [Option<u16>])
    requires warp { Suits warp.now (sides_of image.now) }
    requires row { y < image.now.height }
    requires whole { length into.old ≡ image.now.width }
    ensures { (x : ℕ) → x < image.now.width
        → slice_index_or into.new x None ≡ rectified image.now warp.now x y }
{
    match warp {
        Warp::Identity => copy_row(image, y, into),
        _ => warp_row(image, warp, y, into),
    }
}

/// Writes whole rows of the rectified image, the first of which begins at the place `start`.
fn rectify_rows(image: &Image, warp: &Warp, start: usize, into: &mut [Option<u16>])
    requires warp { Suits warp.now (sides_of image.now) }
    requires start { start % image.now.width ≡ 0 }
    requires whole { length into.old % image.now.width ≡ 0 }
    requires inside { start + length into.old ≤ image.now.width * image.now.height }
    ensures { EachIndex into.new (λ k. slice_index_or into.new k None
        ≡ rectified image.now warp.now ((start + k) % image.now.width)
        ((start + k) / image.now.width)) }
{
    let width = image.size().width as usize;
    let first = start / width;
    for row in 0..into.len() / width {
        let (_, rest) = into.split_at_mut(row * width);
        let (here, _) = rest.split_at_mut(width);
        rectify_row(image, warp, (first + row) as u32, here);
    }
}

/// The rectified image, which has the size of the source.
pub fn rectify(alloc: Global, image: &Image, warp: &Warp) -> Result<Plane, AllocError>
    requires { Suits warp.now (sides_of image.now) }
    ensures { IfOk result (λ p. p ≡ rectified_values image.now warp.now) }
{
    let size = image.size();
    let mut entries = vec![in alloc; None; size.pixels()]?;
    rectify_rows(image, warp, 0, entries.as_mut_slice());
    Ok(Plane::make(size, entries).unwrap())
}

/// Writes the rectified image, each of some equal parts of its rows in a thread of its own where
/// one can be made.
fn rectify_parts<R: Threads + Sync>(
    rt: &R,
    image: &Image,
    warp: &Warp,
    parts: usize,
    into: &mut [Option<u16>],
)
    requires warp { Suits warp.now (sides_of image.now) }
    requires some { 0 < parts }
    requires whole { length into.old ≡ image.now.width * image.now.height }
    ensures { into.new ≡ (rectified_values image.now warp.now).entries }
{
    let size = image.size();
    let width = size.width as usize;
    let rows = (size.height as usize).div_ceil(parts);
    for_each_chunk_mut(
        rt,
        into,
        rows * width,
        &|start, part|
            requires warp { Suits warp.now (sides_of image.now) }
            requires start { start % image.now.width ≡ 0 }
            requires whole { length part.old % image.now.width ≡ 0 }
            requires inside { start + length part.old ≤ image.now.width * image.now.height }
            ensures { (k : ℕ) → k < length part.old → slice_index_or part.new k None
                ≡ rectified image.entry.now warp.entry.now ((start + k) % image.entry.now.width)
                ((start + k) / image.entry.now.width) }
        { rectify_rows(image, warp, start, part) },
    );
}

/// The same, made in at most so many threads.
pub fn rectify_by<R: Threads + Sync>(
    rt: &R,
    alloc: Global,
    image: &Image,
    warp: &Warp,
    threads: usize,
) -> Result<Plane, AllocError>
    requires warp { Suits warp.now (sides_of image.now) }
    requires some { 0 < threads }
    ensures { IfOk result (λ p. p ≡ rectified_values image.now warp.now) }
{
    let size = image.size();
    let mut entries = vec![in alloc; None; size.pixels()]?;
    rectify_parts(rt, image, warp, threads, entries.as_mut_slice());
    Ok(Plane::make(size, entries).unwrap())
}
