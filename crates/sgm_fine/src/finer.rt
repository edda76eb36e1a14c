//! The finer value of a pixel.

ghost use Rattle.std.specs.Prelude.{◌≡◌, ℕ, ◌+◌, ◌-◌, ◌*◌, ◌/◌, ◌^◌, ◌<◌, ◌≤◌, pos, ◌≤ℤ◌, ◌+ℤ◌};
ghost use Rattle.std.specs.Prelude.{unsigned_abs, if◌then◌else◌, length, option_map};
ghost use Rattle.std.specs.Prelude.{slice_index_or, None, IfSome, EachIndex};
ghost use Rattle.sgm_base.specs.Disparities.{IsFirst};
ghost use Rattle.sgm_base.specs.Ranges.{IsFromTo, Within};
ghost use Rattle.sgm_base.specs.Values.{AtMost, value_at};
ghost use Rattle.sgm_fine.specs.Finer.{ArePixelParts, AreSmallParts, best, finer_value, fits};
ghost use Rattle.sgm_fine.specs.Bands.{HoldsBands};
ghost use Rattle.sgm_fine.specs.Finer.{place_score, takes, tells};
ghost use Rattle.sgm_fine.specs.Samples.{Centre, HoldsLie, IsLie, centre};
ghost use Rattle.sgm_fine.specs.Scores.{AreParts, divided, score};

use crate::around::Field;
use crate::band::{Bands, no_bands, pack_bands};
use crate::samples::{Lie, Pixel, lie_of, samples_at};
use crate::score::Score;
use crate::scores::{Fit, Parts, advanced, fit_at, parts_of, walk_from, window_sums};
use crate::slopes::slopes_at;
use crate::small::small_window;
use crate::whole::whole_window;
use sgm_base::{DispMap, Plane, Span};

/// A place and its score.
#[derive(Clone, Copy)]
struct Choice {
    place: i32,
    score: Score,
}

/// Whether the value of the place `c` is one from 0 to `most`.
#[inline]
fn fits(m: u16, most: u16, c: i32) -> bool
    requires { Within 8 c }
    ensures { result ≡ fits most m c }
{
    let value = i32::from(m) + c;
    0 <= value && value <= i32::from(most)
}

/// The better one of a choice and of the place `c`, whose fit is given: the place only where its
/// value is one from 0 to `most`, and its score is greater.
#[inline]
fn better(best: Choice, c: i32, fit: Fit, m: u16, most: u16) -> Choice
    requires place { Within 8 c }
    requires together { Within 2506140000 fit.together }
    ensures place { result.place
        ≡ (if takes most m c (score fit.together fit.right) (divided best.score) then c
        else best.place) }
    ensures score { divided result.score
        ≡ (if takes most m c (score fit.together fit.right) (divided best.score)
        then score fit.together fit.right else divided best.score) }
{
    if !fits(m, most, c) {
        return best;
    }
    match Score::of(fit) {
        Some(score) if score.is_greater(best.score) => Choice { place: c, score },
        _ => best,
    }
}

/// The place of the greatest score, and of equal ones the first of 0, -1, 1, -2, 2 and so on to 8.
/// `most` is the greatest value that there can be.
fn best(parts: &Parts, m: u16, most: u16) -> Choice
    requires parts { AreParts parts.now }
    requires small { AreSmallParts parts.now }
    ensures value { (p : Centre) (count : ℕ) → ArePixelParts parts.now p → p.value ≡ m
        → most ≡ 16 * (count - 1) → result.place ≡ best count p }
    ensures score { (p : Centre) → ArePixelParts parts.now p
        → divided result.score ≡ place_score p result.place }
    ensures place { Within 8 result.place }
    ensures small { IsFromTo (pos 0) (pos 65535) (pos m +ℤ result.place) }
    ensures bound { m ≤ most → (pos m +ℤ result.place) ≤ℤ pos most }
{
    let mut after = walk_from(parts.here, parts.after);
    let mut before = walk_from(parts.here, parts.before);
    let mut best = Choice {
        place: 0,
        score: Score::of(before.fit).unwrap_or(Score::zero()),
    };
    for n in 1..9 {
        after = advanced(after);
        before = advanced(before);
        best = better(best, -n, after.fit, m, most);
        best = better(best, n, before.fit, m, most);
    }
    best
}

/// A square.
#[inline]
fn square(together: i64) -> i64
    requires { Within 2506140000 together }
    ensures { result ≡ pos (unsigned_abs together * unsigned_abs together) }
{
    together * together
}

/// A third of a product, rounded up.
#[inline]
fn third(left: i64, right: i64) -> i64
    requires left { IsFromTo (pos 0) (pos 19507500) left }
    requires right { IsFromTo (pos 0) (pos 321965280000) right }
    ensures { result ≡ pos ((unsigned_abs left * unsigned_abs right + 2) / 3) }
{
    (left * right + 2) / 3
}

/// Whether a place tells something: it has a score, and explains a third of the left window or
/// more.
fn tells(parts: &Parts, best: Choice) -> bool
    requires parts { AreParts parts.now }
    requires small { AreSmallParts parts.now }
    requires place { Within 8 best.place }
    ensures { (p : Centre) → ArePixelParts parts.now p
        → divided best.score ≡ place_score p best.place → result ≡ tells p best.place }
{
    if best.score.is_zero() {
        return false;
    }
    let fit = fit_at(parts, best.place);
    // Three times the square may be too great.
    third(parts.alone, fit.right) <= square(fit.together)
}

/// The value `m` made finer by how a window's numbers vary.
fn refined(parts: &Parts, m: u16, most: u16) -> u16
    requires parts { AreParts parts.now }
    requires small { AreSmallParts parts.now }
    ensures value { (p : Centre) (count : ℕ) → ArePixelParts parts.now p → p.value ≡ m
        → most ≡ 16 * (count - 1)
        → result ≡ (if tells p (best count p) then unsigned_abs (pos m +ℤ best count p) else m) }
    ensures bound { m ≤ most → result ≤ most }
{
    let best = best(parts, m, most);
    if tells(parts, best) {
        (i32::from(m) + best.place) as u16
    } else {
        m
    }
}

/// What the values of a row of a map are made finer by: the planes, their rows around it, packed,
/// the map as it was before, the first disparity, and the greatest value that there can be.
#[derive(Drop)]
pub(crate) struct Ground<'a> {
    left: Field<'a>,
    right: Field<'a>,
    bands: &'a Bands,
    map: Field<'a>,
    first: i32,
    most: u16,
}

/// The finer value of the pixel `at`, whose window lies so, by its samples made small.
fn by_samples(ground: &Ground, at: Pixel, lie: &Lie) -> u16
    requires pixel { (at.x < 2 ^ 15) × (at.y < 2 ^ 15) }
    requires lie { IsLie lie.now }
    ensures value { (count : ℕ) → ground.now.most ≡ 16 * (count - 1)
        → HoldsLie lie.now
        (centre ground.now.left ground.now.right ground.now.map at.first at.x at.y at.value)
        → result ≡ finer_value count
        (centre ground.now.left ground.now.right ground.now.map at.first at.x at.y at.value) }
    ensures bound { at.value ≤ ground.now.most → result ≤ ground.now.most }
{
    match samples_at(&ground.left, &ground.right, at, lie) {
        None => at.value,
        Some(window) => refined(
            &parts_of(&window_sums(&small_window(&window))),
            at.value,
            ground.most,
        ),
    }
}

/// The finer value of the pixel (x, y), whose value is `m`.
fn finer_at(ground: &Ground, x: usize, y: usize, m: u16) -> u16
    requires pixel { (x < 2 ^ 15) × (y < 2 ^ 15) × IsFirst ground.now.first }
    requires bands { HoldsBands ground.now.bands.now ground.now.left ground.now.right y }
    ensures value { (count : ℕ) → ground.now.most ≡ 16 * (count - 1) → result
        ≡ finer_value count
        (centre ground.now.left ground.now.right ground.now.map ground.now.first x y m) }
    ensures bound { m ≤ ground.now.most → result ≤ ground.now.most }
{
    let at = Pixel {
        x,
        y,
        value: m,
        first: ground.first,
    };
    let lie = lie_of(at, slopes_at(&ground.map, x, y, m));
    match whole_window(&ground.left, &ground.right, ground.bands, at, &lie) {
        None => by_samples(ground, at, &lie),
        Some(window) => refined(&parts_of(&window_sums(&window)), m, ground.most),
    }
}

/// The finer value of the pixel (x, y), none where it is void.
fn finer_pixel(ground: &Ground, x: usize, y: usize) -> Option<u16>
    requires pixel { (x < 2 ^ 15) × (y < 2 ^ 15) × IsFirst ground.now.first }
    requires bands { HoldsBands ground.now.bands.now ground.now.left ground.now.right y }
    ensures value { (count : ℕ) → ground.now.most ≡ 16 * (count - 1) → result ≡ option_map
        (λ value. finer_value count
        (centre ground.now.left ground.now.right ground.now.map ground.now.first x y value))
        (value_at ground.now.map x y) }
    ensures bound { IfSome (value_at ground.now.map x y) (λ m. m ≤ ground.now.most)
        → IfSome result (λ m. m ≤ ground.now.most) }
{
    match ground.map.at(x, y) {
        None => None,
        Some(m) => Some(finer_at(ground, x, y, m)),
    }
}

/// Writes the finer values of the row `y` of a map: for each pixel the value, within eight
/// sixteenths of the map's, at which the grey values of the right plane, in a window of five by
/// five that is laid along the surface of the map, explain those of the left plane best; the map's
/// own where a sample of the windows is void or outside, or where less than a third is explained at
/// best. A pixel without a value stays without one.
///
/// Values are in sixteenths of a pixel, less the first disparity of the span. Samples are taken as
/// they are in the planes. `map` is the whole map as it was before this step, row by row, and
/// `into` has one entry for each column.
pub fn finer_row(
    left: &Plane,
    right: &Plane,
    map: &DispMap,
    span: Span,
    y: u32,
    into: &mut [Option<u16>],
)
    requires row { y < map.now.height }
    requires into_length { length into.old ≡ map.now.width }
    ensures value { EachIndex into.new (λ x. slice_index_or into.new x None ≡ option_map
        (λ value. finer_value span.count (centre left.now right.now map.now span.first x y value))
        (value_at map.now x y)) }
    ensures bound { AtMost (16 * (span.count - 1)) map.now.entries
        → AtMost (16 * (span.count - 1)) into.new }
{
    let map = Field::of_map(map);
    let (left, right) = (Field::of_plane(left), Field::of_plane(right));
    let mut bands = no_bands();
    pack_bands(&left, &right, y as usize, &mut bands);
    let ground = Ground {
        left,
        right,
        bands: &bands,
        map,
        first: span.first,
        most: (16 * (span.count - 1)) as u16,
    };
    for x in 0..into.len() {
        into[x] = finer_pixel(&ground, x, y as usize);
    }
}
