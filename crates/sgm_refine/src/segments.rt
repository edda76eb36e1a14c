ghost use Rattle.std.specs.Prelude.{◌≡◌, ◌/◌, ◌+◌, ◌<◌, ◌≤◌, ◌^◌, ℕ, true, false, length, map};
ghost use Rattle.std.specs.Prelude.{Some, None, IfSome, IfOk, OnErr, slice_index_or};
ghost use Rattle.std.specs.List.{Contains};
ghost use Rattle.sgm_refine.specs.Flooding.{IsMarked, IsClosed, Enters, IsFlooded, IsKeeping};
ghost use Rattle.sgm_refine.specs.Segments.{places, value_of, are_neighbours, are_close, is_linked};
ghost use Rattle.sgm_refine.specs.Segments.{kept_at, kept};

use crate::pixels::Pixels;
use sgm_base::DispMap;
use std::alloc::{AllocError, Global};

/// The greatest difference of the disparities of two linked pixels, in sixteenths.
pub const LINK_DISTANCE: u16 = 16;

/// Removes from the map the disparities of all segments of fewer than `least` pixels. Two pixels
/// are linked where they are neighbours in a row or a column and their disparities differ by at
/// most [`LINK_DISTANCE`]; the segment of a pixel is all pixels to which a chain of linked pixels
/// goes from it, itself among them. With a `least` of 0 or 1 the map stays as it is. Where memory
/// runs out it is unchanged. The rule is of this project.
pub fn peaks(alloc: Global, map: &mut DispMap, least: u32) -> Result<(), AllocError>
    ensures kept { IfOk result (λ _. map.new ≡ kept map.old least) }
    ensures err { OnErr result (map.new ≡ map.old) }
{
    let size = map.size();
    if least <= 1 {
        return Ok(());
    }
    let pixels = Pixels {
        entries: map.entries(),
        width: size.width as usize,
    };
    let entries = kept_entries(alloc, &pixels, least as usize)?;
    let Some(kept) = DispMap::make(size, entries) else {
        unreachable!()
    };
    *map = kept;
    Ok(())
}

/// The entries without those of segments of fewer than `least` pixels.
fn kept_entries(
    alloc: Global,
    pixels: &Pixels,
    least: usize,
) -> Result<Vec<Option<u16>>, AllocError>
    ensures { IfOk result (λ v. v.items
        ≡ map (kept_at pixels.now.width pixels.now.entries.now least)
        (places pixels.now.entries.now)) }
{
    let mut kept = pixels.entries.to_vec(alloc)?;
    let mut seen = vec![in alloc; false; pixels.entries.len()]?;
    let mut segment = Vec::new(alloc);
    for at in 0..pixels.entries.len() {
        keep(pixels, least, at, &mut seen, &mut segment, &mut kept)?;
    }
    Ok(kept)
}

/// Marks the segment of the pixel `at`, where it isn't marked, and removes its disparities from
/// `kept` where it has fewer than `least` pixels.
fn keep(
    pixels: &Pixels,
    least: usize,
    at: usize,
    seen: &mut [bool],
    segment: &mut Vec<usize>,
    kept: &mut [Option<u16>],
) -> Result<(), AllocError>
    requires inside { at < length pixels.now.entries.now }
    requires keeping { IsKeeping pixels.now.width pixels.now.entries.now least seen.old kept.old }
    ensures keeping { IfOk result
        (λ _. IsKeeping pixels.now.width pixels.now.entries.now least seen.new kept.new) }
    ensures stays { IfOk result (λ _. (k : ℕ) → IsMarked seen.old k → IsMarked seen.new k) }
    ensures here { IfOk result (λ _. IsMarked seen.new at) }
{
    if seen[at] {
        return Ok(());
    }
    flood(pixels, at, seen, segment)?;
    if segment.len() < least {
        clear(kept, segment);
    }
    Ok(())
}

/// Removes the disparities of these pixels.
fn clear(kept: &mut [Option<u16>], segment: &[usize])
    requires inside { (k : ℕ) → Contains segment.now k → k < length kept.old }
    ensures cleared { (k : ℕ) → Contains segment.now k → value_of kept.new k ≡ None }
    ensures others { (k : ℕ) → (Contains segment.now k → ⊥)
        → value_of kept.new k ≡ value_of kept.old k }
{
    for at in segment {
        kept[*at] = None;
    }
}

/// Puts into `segment` the segment of the pixel `from`, which isn't marked, and marks its pixels.
/// Each pixel of it is visited once.
fn flood(
    pixels: &Pixels,
    from: usize,
    seen: &mut [bool],
    segment: &mut Vec<usize>,
) -> Result<(), AllocError>
    requires inside { from < length pixels.now.entries.now }
    requires whole { length seen.old ≡ length pixels.now.entries.now }
    requires fresh { slice_index_or seen.old from false ≡ false }
    requires closed { IsClosed pixels.now.width pixels.now.entries.now seen.old }
    ensures { IfOk result (λ _. IsFlooded pixels.now.width pixels.now.entries.now from seen.old
        seen.new segment.new.items) }
{
    segment.clear();
    segment.push(from)?;
    seen[from] = true;
    let mut next = 0;
    while next < segment.len() {
        visit(pixels, segment[next], seen, segment)?;
        next += 1;
    }
    Ok(())
}

/// Enters the pixels that are linked to `at` and aren't marked.
fn visit(
    pixels: &Pixels,
    at: usize,
    seen: &mut [bool],
    segment: &mut Vec<usize>,
) -> Result<(), AllocError>
    requires inside { at < length pixels.now.entries.now }
    requires whole { length seen.old ≡ length pixels.now.entries.now }
    ensures enters { IfOk result (λ _. Enters pixels.now.width pixels.now.entries.now at seen.old
        seen.new segment.old.items segment.new.items) }
    ensures all { IfOk result (λ _. (k : ℕ)
        → is_linked pixels.now.width pixels.now.entries.now at k ≡ true → IsMarked seen.new k) }
{
    let (entries, width) = (pixels.entries, pixels.width);
    enter(entries, at, left(width, at), seen, segment)?;
    enter(entries, at, right(width, entries.len(), at), seen, segment)?;
    enter(entries, at, above(width, at), seen, segment)?;
    enter(entries, at, below(width, entries.len(), at), seen, segment)?;
    Ok(())
}

/// Enters the neighbour `to` of the pixel `at`, where there is one, it isn't marked and it is
/// linked to `at`.
fn enter(
    entries: &[Option<u16>],
    at: usize,
    to: Option<usize>,
    seen: &mut [bool],
    segment: &mut Vec<usize>,
) -> Result<(), AllocError>
    requires at { at < length entries.now }
    requires to { IfSome to (λ k. k < length entries.now) }
    requires whole { length seen.old ≡ length entries.now }
    ensures enters { IfOk result (λ _. (width : ℕ)
        → IfSome to (λ k. are_neighbours width at k ≡ true)
        → Enters width entries.now at seen.old seen.new segment.old.items segment.new.items) }
    ensures close { IfOk result (λ _. (k : ℕ) → to ≡ Some k
        → are_close (value_of entries.now at) (value_of entries.now k) ≡ true
        → IsMarked seen.new k) }
{
    let Some(to) = to else { return Ok(()) };
    if !seen[to] && close(entries[at], entries[to]) {
        segment.push(to)?;
        seen[to] = true;
    }
    Ok(())
}

/// Whether both are disparities, which differ by at most [`LINK_DISTANCE`].
fn close(a: Option<u16>, b: Option<u16>) -> bool
    ensures { result ≡ are_close a b }
{
    match (a, b) {
        (Some(a), Some(b)) => a.abs_diff(b) <= LINK_DISTANCE,
        _ => false,
    }
}

/// The pixel before `at` in its row.
fn left(width: usize, at: usize) -> Option<usize>
    requires { 0 < width }
    ensures neighbour { IfSome result (λ k. are_neighbours width at k ≡ true) }
    ensures inside { IfSome result (λ k. k < at) }
    ensures found { (k : ℕ) → at ≡ k + 1 → k / width ≡ at / width → result ≡ Some k }
{
    if at % width > 0 { Some(at - 1) } else { None }
}

/// The pixel after `at` in its row, of so many pixels.
fn right(width: usize, pixels: usize, at: usize) -> Option<usize>
    requires wide { 0 < width }
    requires inside { at < pixels }
    ensures neighbour { IfSome result (λ k. are_neighbours width at k ≡ true) }
    ensures inside { IfSome result (λ k. k < pixels) }
    ensures found { (k : ℕ) → k < pixels → k ≡ at + 1 → at / width ≡ k / width → result ≡ Some k }
{
    if at % width + 1 < width && at + 1 < pixels {
        Some(at + 1)
    } else {
        None
    }
}

/// The pixel above `at`.
fn above(width: usize, at: usize) -> Option<usize>
    ensures neighbour { IfSome result (λ k. are_neighbours width at k ≡ true) }
    ensures inside { IfSome result (λ k. k ≤ at) }
    ensures found { (k : ℕ) → at ≡ k + width → result ≡ Some k }
{
    at.checked_sub(width)
}

/// The pixel below `at`, of so many pixels.
fn below(width: usize, pixels: usize, at: usize) -> Option<usize>
    requires narrow { width ≤ 2 ^ 32 }
    requires many { pixels ≤ 2 ^ 32 }
    requires inside { at < pixels }
    ensures neighbour { IfSome result (λ k. are_neighbours width at k ≡ true) }
    ensures inside { IfSome result (λ k. k < pixels) }
    ensures found { (k : ℕ) → k < pixels → k ≡ at + width → result ≡ Some k }
{
    if at + width < pixels {
        Some(at + width)
    } else {
        None
    }
}
