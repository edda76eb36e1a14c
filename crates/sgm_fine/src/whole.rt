//! Windows of which all samples are there and small, so that they are worked out in lanes of 16
//! bits and need no making small.

ghost use Rattle.std.specs.Prelude.{◌≡◌, ℕ, ◌<◌, ◌≤◌, ◌+◌, ◌-◌, ◌*◌, ◌/◌, ◌%◌, ◌^◌, ◌≤ℤ◌};
ghost use Rattle.std.specs.Prelude.{◌-ℤ◌, pos, true, IfSome, unsigned_abs};
ghost use Rattle.sgm_base.specs.Values.{Values};
ghost use Rattle.sgm_fine.specs.Bands.{AreBetween, AreLanes, HoldsBands, HoldsGathered, IsGathered};
ghost use Rattle.sgm_fine.specs.Bands.{IsWhole};
ghost use Rattle.sgm_fine.specs.Samples.{HoldsLie, IsLie, LiesInside, centre};
ghost use Rattle.sgm_fine.specs.Small.{HoldsWhole, IsSmall};
ghost use Rattle.sgm_fine.specs.Windows.{number};

use crate::around::Field;
use crate::band::{Band, Bands, ROOM};
use crate::samples::{Lie, Pixel, lies_inside};
use crate::small::SmallWindow;
use crate::sums::{LANES, Numbers, PLACES, SIDE, zeros};

/// What the samples of a window follow from: those on the left; for each place the three on the
/// right around it, and how many sixteenths half a pixel before it lies after the first of them. A
/// number below 0 for each sample that isn't there or isn't small.
#[derive(Clone, Copy)]
struct Gathered {
    left: Numbers,
    first: Numbers,
    second: Numbers,
    third: Numbers,
    part: Numbers,
}

/// The samples on the right of one place, below 4096.
#[derive(Clone, Copy)]
struct SmallRights {
    after: u16,
    here: u16,
    before: u16,
}

/// How many sixteenths after the column 0 the place lies that is half a pixel before the one of the
/// column `i` and the row `j` of a window.
#[inline]
fn start_of(lie: &Lie, i: usize, j: usize) -> u32
    requires place { (i < SIDE) × (j < SIDE) }
    requires lie { IsLie lie.now }
    requires among { LiesInside lie.now 4096 }
    ensures value { pos result ≡ (number lie.now.columns i -ℤ number lie.now.rows j) -ℤ pos 8 }
    ensures small { result < 16 * 4094 }
{
    (lie.columns[i] - lie.rows[j] - 8) as u32
}

/// A number of packed rows.
#[inline]
fn number_at(band: &Band, at: usize) -> i16
    requires { at < SIDE * ROOM }
    ensures { result ≡ number band.now at }
{
    band[at]
}

/// Nothing gathered yet: 0 everywhere.
#[inline]
fn nothing() -> Gathered
    ensures { IsGathered result }
{
    Gathered {
        left: zeros(),
        first: zeros(),
        second: zeros(),
        third: zeros(),
        part: zeros(),
    }
}

/// Copies the samples of the window of a pixel in the column `x` from its packed rows.
#[inline]
fn gather_left(left: &Band, x: usize, into: &mut Numbers)
    requires column { (2 ≤ x) × (x + 2 < 4096) }
    requires padded { AreLanes into.old }
    ensures each { (k : ℕ) → k < PLACES
        → number into.new k ≡ number left.now (ROOM * (k / SIDE) + (x + k % SIDE - 2)) }
    ensures padded { AreLanes into.new }
{
    for j in 0..SIDE {
        let at = ROOM * j + x - 2;
        into[SIDE * j..SIDE * (j + 1)].copy_from_slice(&left[at..at + SIDE]);
    }
}

/// Gathers what the samples of a window on the right follow from. What was there is written over,
/// so that no list is copied.
#[inline]
fn gather_right(right: &Band, lie: &Lie, gathered: &mut Gathered)
    requires lie { IsLie lie.now }
    requires among { LiesInside lie.now 4096 }
    requires padded { IsGathered gathered.old }
    ensures each { (k : ℕ) → k < PLACES → HoldsGathered gathered.new right.now lie.now k }
    ensures left { gathered.new.left ≡ gathered.old.left }
    ensures padded { IsGathered gathered.new }
{
    for j in 0..SIDE {
        for i in 0..SIDE {
            let k = SIDE * j + i;
            let start = start_of(lie, i, j);
            let at = ROOM * j + (start / 16) as usize;
            gathered.first[k] = number_at(right, at);
            gathered.second[k] = number_at(right, at + 1);
            gathered.third[k] = number_at(right, at + 2);
            gathered.part[k] = (start % 16) as i16;
        }
    }
}

/// The number of a lane.
#[inline]
fn lane(numbers: &Numbers, k: usize) -> i16
    requires { k < LANES }
    ensures { result ≡ number numbers.now k }
{
    numbers[k]
}

/// The least of all numbers of four lists, or 0.
#[inline(never)]
fn least_of(a: &Numbers, b: &Numbers, c: &Numbers, d: &Numbers) -> i16
    ensures first { (k : ℕ) → k < LANES → result ≤ℤ number a.now k }
    ensures second { (k : ℕ) → k < LANES → result ≤ℤ number b.now k }
    ensures third { (k : ℕ) → k < LANES → result ≤ℤ number c.now k }
    ensures fourth { (k : ℕ) → k < LANES → result ≤ℤ number d.now k }
{
    let mut least: i16 = 0;
    for k in 0..LANES {
        least = least.min(lane(a, k)).min(lane(b, k));
        least = least.min(lane(c, k)).min(lane(d, k));
    }
    least
}

/// The samples between three others, `f` sixteenths after the middle of the first two.
#[inline]
fn rights_between(a: u16, b: u16, c: u16, f: u16) -> SmallRights
    requires samples { (a < 256) × (b < 256) × (c < 256) }
    requires part { f < 16 }
    ensures value { AreBetween (pos result.after) (pos result.here) (pos result.before) a b c f }
    ensures small { (result.after < 4096) × (result.here < 4096) × (result.before < 4096) }
{
    let here = if f < 8 {
        (8 - f) * a + (8 + f) * b
    } else {
        (24 - f) * b + (f - 8) * c
    };
    SmallRights {
        after: (16 - f) * b + f * c,
        here,
        before: (16 - f) * a + f * b,
    }
}

/// The window of samples that are all there and small, in lanes.
#[inline(never)]
fn window_of(gathered: &Gathered) -> SmallWindow
    requires whole { (k : ℕ) → k < LANES → IsWhole gathered.now k }
    requires padded { IsGathered gathered.now }
    ensures left { result.left ≡ gathered.now.left }
    ensures rights { (k : ℕ) → k < PLACES → AreBetween (number result.after k)
        (number result.here k) (number result.before k)
        (unsigned_abs (number gathered.now.first k)) (unsigned_abs (number gathered.now.second k))
        (unsigned_abs (number gathered.now.third k)) (unsigned_abs (number gathered.now.part k)) }
    ensures kept { IsSmall result }
{
    let mut window = SmallWindow {
        left: gathered.left,
        after: zeros(),
        here: zeros(),
        before: zeros(),
    };
    for k in 0..LANES {
        let (a, b, c) = (gathered.first[k], gathered.second[k], gathered.third[k]);
        let rights = rights_between(a as u16, b as u16, c as u16, gathered.part[k] as u16);
        window.after[k] = rights.after as i16;
        window.here[k] = rights.here as i16;
        window.before[k] = rights.before as i16;
    }
    window
}

/// Whether all samples of a window are there and small.
#[inline]
fn is_whole(gathered: &Gathered) -> bool
    ensures left { result ≡ true → (k : ℕ) → k < LANES → pos 0 ≤ℤ number gathered.now.left k }
    ensures first { result ≡ true → (k : ℕ) → k < LANES → pos 0 ≤ℤ number gathered.now.first k }
    ensures second { result ≡ true → (k : ℕ) → k < LANES → pos 0 ≤ℤ number gathered.now.second k }
    ensures third { result ≡ true → (k : ℕ) → k < LANES → pos 0 ≤ℤ number gathered.now.third k }
{
    0 <= least_of(
        &gathered.left,
        &gathered.first,
        &gathered.second,
        &gathered.third,
    )
}

/// The samples of a window as they are, where all are there and small: on the left below 256, and
/// on the right, which are sixteen times as great, below 4096. None where that isn't seen to be so.
pub(crate) fn whole_window(
    left: &Field,
    right: &Field,
    bands: &Bands,
    at: Pixel,
    lie: &Lie,
) -> Option<SmallWindow>
    requires pixel { (at.x < 2 ^ 15) × (at.y < 2 ^ 15) }
    requires lie { IsLie lie.now }
    requires bands { HoldsBands bands.now left.now right.now at.y }
    ensures holds { (map : Values)
        → HoldsLie lie.now (centre left.now right.now map at.first at.x at.y at.value)
        → IfSome result
        (λ w. HoldsWhole w (centre left.now right.now map at.first at.x at.y at.value)) }
    ensures kept { IfSome result IsSmall }
{
    if !bands.are_packed || !left.has_window(at.x, at.y) || !lies_inside(lie, right.width()) {
        return None;
    }
    let mut gathered = nothing();
    gather_left(&bands.left, at.x, &mut gathered.left);
    gather_right(&bands.right, lie, &mut gathered);
    if is_whole(&gathered) {
        Some(window_of(&gathered))
    } else {
        None
    }
}
