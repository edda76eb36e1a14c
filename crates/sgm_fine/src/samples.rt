//! The samples of a window on the left, and those on the right at three offsets.

ghost use Rattle.std.specs.Prelude.{◌≡◌, ℕ, ◌+◌, ◌-◌, ◌*◌, ◌/◌, ◌%◌, ◌^◌, ◌<◌, ◌≤◌, ◌&&◌, ℤ, pos};
ghost use Rattle.std.specs.Prelude.{◌+ℤ◌, ◌-ℤ◌, ◌*ℤ◌, ◌≤ℤ◌, true, Option, Some, None, is_some};
ghost use Rattle.std.specs.Prelude.{IfSome, IsTrue};
ghost use Rattle.sgm_base.specs.Disparities.{IsFirst};
ghost use Rattle.sgm_base.specs.Ranges.{IsFromTo, Within};
ghost use Rattle.sgm_base.specs.Values.{Values};
ghost use Rattle.sgm_fine.specs.Samples.{AreRights, Centre, HoldsLie, HoldsPlace, HoldsSamples};
ghost use Rattle.sgm_fine.specs.Samples.{HoldsSides, HoldsThree, IsInside, IsLie, IsPlace};
ghost use Rattle.sgm_fine.specs.Samples.{IsWindow, LiesInside, centre, has, has_all, has_rights};
ghost use Rattle.sgm_fine.specs.Samples.{sample};
ghost use Rattle.sgm_fine.specs.Slopes.{HoldsSlopes, IsSlope, step_at};
ghost use Rattle.sgm_fine.specs.Windows.{number};

use crate::around::Field;
use crate::slopes::{Slopes, rises};
use crate::sums::{PLACES, SIDE};

/// A sample for each pixel of a window.
pub(crate) type Samples = [u32; PLACES];

/// The samples of a window: on the left, and between those on the right, sixteen times as great, at
/// its place and half a pixel after and before it.
#[derive(Clone, Copy)]
pub(crate) struct Window {
    pub(crate) left: Samples,
    pub(crate) after: Samples,
    pub(crate) here: Samples,
    pub(crate) before: Samples,
}

/// The samples of one pixel of a window.
#[derive(Clone, Copy)]
struct Place {
    left: u32,
    after: u32,
    here: u32,
    before: u32,
}

/// The pixel whose window is looked at, its value, and the first disparity.
#[derive(Clone, Copy)]
pub(crate) struct Pixel {
    pub(crate) x: usize,
    pub(crate) y: usize,
    pub(crate) value: u16,
    pub(crate) first: i32,
}

/// Where a window lies in the right rows, in sixteenths of a pixel: the place of each column where
/// the rows are level, and how far each row lies to the left of that.
#[derive(Clone, Copy)]
pub(crate) struct Lie {
    pub(crate) columns: [i32; SIDE],
    pub(crate) rows: [i32; SIDE],
}

/// The samples on the right of one pixel of a window.
#[derive(Clone, Copy)]
pub(crate) struct Rights {
    pub(crate) after: u32,
    pub(crate) here: u32,
    pub(crate) before: u32,
}

/// The pixels of a row around a place: the first of three and the two after it, none for each that
/// is void or outside, and how many sixteenths the place lies after the middle of the first two.
#[derive(Clone, Copy)]
struct Three {
    first: Option<u16>,
    second: Option<u16>,
    third: Option<u16>,
    part: u32,
}

/// The sample of the column `q` of the row `y`, none where it is void or outside.
#[inline]
fn sample_in(plane: &Field, y: usize, q: i32) -> Option<u16>
    ensures { result ≡ sample plane.now y q }
{
    if q < 0 {
        return None;
    }
    plane.at(q as usize, y)
}

/// Sixteen times a sample, and `f` times the step from it to the next one.
#[inline]
fn mixed(here: i32, step: i32, f: i32) -> i32
    requires here { IsFromTo (pos 0) (pos 65535) here }
    requires step { Within 65535 step }
    requires part { IsFromTo (pos 0) (pos 15) f }
    ensures value { result ≡ (pos 16 *ℤ here) +ℤ (f *ℤ step) }
    ensures small { Within (2 ^ 22) result }
{
    16 * here + f * step
}

/// Half a step on from one number, or half the next step back from another one, whichever is nearer
/// after `f` sixteenths. Both are worked out, so that nothing branches.
#[inline]
fn halfway(before: i32, step: i32, after: i32, next: i32, f: u32) -> i32
    requires numbers { Within (2 ^ 22) before × Within (2 ^ 22) after }
    requires steps { Within 65535 step × Within 65535 next }
    ensures sooner { f < 8 → result ≡ before +ℤ (pos 8 *ℤ step) }
    ensures later { 8 ≤ f → result ≡ after -ℤ (pos 8 *ℤ next) }
{
    let (sooner, later) = (before + 8 * step, after - 8 * next);
    if f < 8 { sooner } else { later }
}

/// The samples on the right between three pixels, `f` sixteenths from the first and the second.
#[inline]
fn rights_of(first: u32, second: u32, third: u32, f: u32) -> Rights
    requires samples { (first < 2 ^ 16) × (second < 2 ^ 16) × (third < 2 ^ 16) }
    requires part { f < 16 }
    ensures after { result.after ≡ (16 - f) * second + f * third }
    ensures sooner { f < 8 → result.here ≡ (8 - f) * first + (8 + f) * second }
    ensures later { 8 ≤ f → result.here ≡ (24 - f) * second + (f - 8) * third }
    ensures before { result.before ≡ (16 - f) * first + f * second }
    ensures small { AreRights result }
{
    let (step, next) = (second as i32 - first as i32, third as i32 - second as i32);
    let before = mixed(first as i32, step, f as i32);
    let after = mixed(second as i32, next, f as i32);
    Rights {
        after: after as u32,
        here: halfway(before, step, after, next, f) as u32,
        before: before as u32,
    }
}

/// The pixels around `u` sixteenths in the row `y`.
#[inline]
fn three_at(plane: &Field, y: usize, u: i32) -> Three
    requires near { Within (2 ^ 24) u }
    ensures holds { HoldsThree result (sample plane.now y) u }
    ensures part { result.part < 16 }
{
    let start = u - 8;
    let (q, part) = (start.div_euclid(16), start.rem_euclid(16) as u32);
    Three {
        first: sample_in(plane, y, q),
        second: sample_in(plane, y, q + 1),
        // The third one isn't needed where the places are those of pixels.
        third: sample_in(plane, y, q + 1 + part.min(1) as i32),
        part,
    }
}

/// The sample of the column `q` of the row `y`, which lies inside, none where it is void.
#[inline]
fn sample_inside(plane: &Field, y: usize, q: usize) -> Option<u16>
    requires row { y < plane.now.height }
    requires column { q < plane.now.width }
    ensures { result ≡ sample plane.now y (pos q) }
{
    plane.inner(q, y)
}

/// The pixels around `u` sixteenths in the row `y`, where all that are needed lie inside.
#[inline]
fn three_inside(plane: &Field, y: usize, u: i32) -> Three
    requires near { Within (2 ^ 24) u }
    requires row { y < plane.now.height }
    requires inside { IsFromTo (pos 8) (pos (16 * plane.now.width) -ℤ pos 25) u }
    ensures holds { HoldsThree result (sample plane.now y) u }
    ensures part { result.part < 16 }
{
    // No pixel is left of column 0, so that nothing here has a sign.
    let start = (u - 8) as u32;
    let (q, part) = ((start / 16) as usize, start % 16);
    Three {
        first: sample_inside(plane, y, q),
        second: sample_inside(plane, y, q + 1),
        third: sample_inside(plane, y, q + 1 + part.min(1) as usize),
        part,
    }
}

/// The samples of a place from the left one and the pixels around it on the right; none where one
/// of them isn't there.
#[inline]
fn place_of(left: Option<u16>, three: Three) -> Option<Place>
    requires { three.part < 16 }
    ensures none { (row : ℤ → Option ℕ) (u : ℤ) → HoldsThree three row u
        → is_some result ≡ (is_some left && has_rights row u) }
    ensures some { (row : ℤ → Option ℕ) (u : ℤ) → HoldsThree three row u
        → IfSome result (λ place. HoldsSides place left row u) }
    ensures small { IfSome result IsPlace }
{
    let left = u32::from(left?);
    let first = u32::from(three.first?);
    let second = u32::from(three.second?);
    let third = u32::from(three.third?);
    let rights = rights_of(first, second, third, three.part);
    Some(Place {
        left,
        after: rights.after,
        here: rights.here,
        before: rights.before,
    })
}

/// The place in the right row of the column `i` of a window, in sixteenths, where the surface is
/// level.
#[inline]
fn level_place(at: Pixel, i: usize) -> i32
    requires pixel { (at.x < 2 ^ 15) × IsFirst at.first }
    requires inside { i < SIDE }
    ensures value { result ≡ (pos 16 *ℤ ((pos at.x +ℤ (pos i -ℤ pos 2)) -ℤ at.first))
        -ℤ pos at.value }
    ensures small { Within (2 ^ 21) result }
{
    16 * (at.x as i32 + (i as i32 - 2) - at.first) - i32::from(at.value)
}

/// The places of a window's columns where the rows are level.
#[inline]
fn columns_of(at: Pixel, across: &[i32; SIDE]) -> [i32; SIDE]
    requires pixel { (at.x < 2 ^ 15) × IsFirst at.first }
    requires across { (n : ℕ) → n < SIDE → Within 6600 (number across.now n) }
    ensures each { (i : ℕ) → i < SIDE → number result i
        ≡ ((pos 16 *ℤ ((pos at.x +ℤ (pos i -ℤ pos 2)) -ℤ at.first)) -ℤ pos at.value)
        -ℤ number across.now i }
    ensures small { (i : ℕ) → i < SIDE → Within (2 ^ 22) (number result i) }
{
    let mut columns = [0; SIDE];
    for i in 0..SIDE {
        columns[i] = level_place(at, i) - across[i];
    }
    columns
}

/// Where the window of a pixel lies.
#[inline]
pub(crate) fn lie_of(at: Pixel, slopes: Slopes) -> Lie
    requires pixel { (at.x < 2 ^ 15) × IsFirst at.first }
    requires slopes { IsSlope slopes.across × IsSlope slopes.down }
    ensures holds { (p : Centre) → p.x ≡ at.x → p.value ≡ at.value → p.first ≡ at.first
        → HoldsSlopes slopes (step_at p.map p.x p.y p.value) → HoldsLie result p }
    ensures small { IsLie result }
{
    let across = rises(slopes.across);
    Lie {
        columns: columns_of(at, &across),
        rows: rises(slopes.down),
    }
}

/// The samples of the pixel `k` of a window; none where one that is needed is void or outside.
#[inline]
fn place_at(left: &Field, right: &Field, at: Pixel, lie: &Lie, k: usize) -> Option<Place>
    requires place { k < PLACES }
    requires pixel { (at.x < 2 ^ 15) × (at.y < 2 ^ 15) }
    requires lie { IsLie lie.now }
    ensures none { (map : Values)
        → HoldsLie lie.now (centre left.now right.now map at.first at.x at.y at.value)
        → is_some result ≡ has (centre left.now right.now map at.first at.x at.y at.value) k }
    ensures some { (map : Values)
        → HoldsLie lie.now (centre left.now right.now map at.first at.x at.y at.value)
        → IfSome result
        (λ s. HoldsPlace s (centre left.now right.now map at.first at.x at.y at.value) k) }
    ensures small { IfSome result IsPlace }
{
    let sample = left.around(2, at.x, at.y, k % SIDE, k / SIDE)?;
    let u = lie.columns[k % SIDE] - lie.rows[k / SIDE];
    place_of(Some(sample), three_at(right, at.y + k / SIDE - 2, u))
}

/// The samples of the pixel in the column `i` and the row `j` of a window that lies inside; none
/// where one that is needed is void.
#[inline]
fn place_inside(
    left: &Field,
    right: &Field,
    at: Pixel,
    lie: &Lie,
    i: usize,
    j: usize,
) -> Option<Place>
    requires place { (i < SIDE) × (j < SIDE) }
    requires pixel { (at.x < 2 ^ 15) × (at.y < 2 ^ 15) }
    requires lie { IsLie lie.now }
    requires inside { IsInside left.now right.now at.x at.y }
    requires among { LiesInside lie.now right.now.width }
    ensures none { (map : Values)
        → HoldsLie lie.now (centre left.now right.now map at.first at.x at.y at.value)
        → is_some result ≡ has (centre left.now right.now map at.first at.x at.y at.value)
        (SIDE * j + i) }
    ensures some { (map : Values)
        → HoldsLie lie.now (centre left.now right.now map at.first at.x at.y at.value)
        → IfSome result (λ s.
        HoldsPlace s (centre left.now right.now map at.first at.x at.y at.value) (SIDE * j + i)) }
    ensures small { IfSome result IsPlace }
{
    let sample = left.around_inside(at.x, at.y, i, j);
    let u = lie.columns[i] - lie.rows[j];
    place_of(sample, three_inside(right, at.y + j - 2, u))
}

/// The least of five places.
#[inline]
fn least_of(places: &[i32; SIDE]) -> i32
    ensures { (n : ℕ) → n < SIDE → result ≤ℤ number places.now n }
{
    let mut least = places[0];
    for n in 0..SIDE {
        least = least.min(places[n]);
    }
    least
}

/// The greatest of five places.
#[inline]
fn greatest_of(places: &[i32; SIDE]) -> i32
    ensures { (n : ℕ) → n < SIDE → number places.now n ≤ℤ result }
{
    let mut greatest = places[0];
    for n in 0..SIDE {
        greatest = greatest.max(places[n]);
    }
    greatest
}

/// How far a place lies after another one.
#[inline]
fn apart(place: i32, other: i32) -> i64
    ensures value { result ≡ place -ℤ other }
    ensures small { Within (2 ^ 32) result }
{
    i64::from(place) - i64::from(other)
}

/// Whether a right row of so many columns has all that is needed from one place to another.
#[inline]
fn spans(first: i64, last: i64, width: usize) -> bool
    requires last { Within (2 ^ 32) last }
    requires width { width < 2 ^ 16 }
    ensures first { result ≡ true → pos 8 ≤ℤ first }
    ensures last { result ≡ true → last ≤ℤ (pos (16 * width) -ℤ pos 25) }
{
    8 <= first && last + 24 < 16 * width as i64
}

/// Whether a window lies where a right row of so many columns has all that is needed of it.
#[inline]
pub(crate) fn lies_inside(lie: &Lie, width: usize) -> bool
    requires { width < 2 ^ 16 }
    ensures { result ≡ true → LiesInside lie.now width }
{
    let first = apart(least_of(&lie.columns), greatest_of(&lie.rows));
    let last = apart(greatest_of(&lie.columns), least_of(&lie.rows));
    spans(first, last, width)
}

/// The samples of a window; none where a pixel that is needed is void or outside. INSIDE says that
/// the window lies inside, so that nothing tests the edges. A function by itself, since its numbers
/// stay in registers so.
#[inline(never)]
fn samples_of<const INSIDE: bool>(
    left: &Field,
    right: &Field,
    at: Pixel,
    lie: &Lie,
) -> Option<Window>
    requires pixel { (at.x < 2 ^ 15) × (at.y < 2 ^ 15) }
    requires lie { IsLie lie.now }
    requires inside { IsTrue INSIDE → IsInside left.now right.now at.x at.y }
    requires among { IsTrue INSIDE → LiesInside lie.now right.now.width }
    ensures none { (map : Values)
        → HoldsLie lie.now (centre left.now right.now map at.first at.x at.y at.value)
        → is_some result ≡ has_all (centre left.now right.now map at.first at.x at.y at.value) }
    ensures some { (map : Values)
        → HoldsLie lie.now (centre left.now right.now map at.first at.x at.y at.value)
        → IfSome result
        (λ w. HoldsSamples w (centre left.now right.now map at.first at.x at.y at.value)) }
    ensures small { IfSome result IsWindow }
{
    let mut window = Window {
        left: [0; PLACES],
        after: [0; PLACES],
        here: [0; PLACES],
        before: [0; PLACES],
    };
    for j in 0..SIDE {
        for i in 0..SIDE {
            let k = SIDE * j + i;
            let found = if INSIDE {
                place_inside(left, right, at, lie, i, j)
            } else {
                place_at(left, right, at, lie, k)
            };
            let place = found?;
            window.left[k] = place.left;
            window.after[k] = place.after;
            window.here[k] = place.here;
            window.before[k] = place.before;
        }
    }
    Some(window)
}

/// The samples of a window; none where a pixel that is needed is void or outside.
pub(crate) fn samples_at(left: &Field, right: &Field, at: Pixel, lie: &Lie) -> Option<Window>
    requires pixel { (at.x < 2 ^ 15) × (at.y < 2 ^ 15) }
    requires lie { IsLie lie.now }
    ensures none { (map : Values)
        → HoldsLie lie.now (centre left.now right.now map at.first at.x at.y at.value)
        → is_some result ≡ has_all (centre left.now right.now map at.first at.x at.y at.value) }
    ensures some { (map : Values)
        → HoldsLie lie.now (centre left.now right.now map at.first at.x at.y at.value)
        → IfSome result
        (λ w. HoldsSamples w (centre left.now right.now map at.first at.x at.y at.value)) }
    ensures small { IfSome result IsWindow }
{
    let inside = left.has_window(at.x, at.y) && right.has_rows(at.y);
    if inside && lies_inside(lie, right.width()) {
        samples_of::<true>(left, right, at, lie)
    } else {
        samples_of::<false>(left, right, at, lie)
    }
}
