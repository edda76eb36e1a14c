//! How the values of a map rise around a pixel.

ghost use Rattle.std.specs.Prelude.{◌≡◌, ℕ, ◌+◌, ◌*◌, ◌^◌, ◌<◌, ℤ, pos, neg_ℤ, ◌+ℤ◌, ◌-ℤ◌, ◌*ℤ◌};
ghost use Rattle.std.specs.Prelude.{IfSome, unwrap_or, is_some, if◌then◌else◌};
ghost use Rattle.std.specs.Ordering.{int_eq};
ghost use Rattle.sgm_base.specs.Ranges.{IsFromTo, Within};
ghost use Rattle.sgm_base.specs.Rounding.{rounded};
ghost use Rattle.sgm_fine.specs.Slopes.{HoldsSlopes, IsSlope, step_at, step_to};
ghost use Rattle.sgm_fine.specs.Windows.{number};

use crate::around::Field;
use crate::sums::{PLACES, SIDE, product};

/// The greatest step from a pixel's value to one that still belongs to its surface, in sixteenths.
pub(crate) const REACH: u16 = 32;

/// The columns of a window's pixels, from that of the middle.
const COLUMNS: [i16; PLACES] = [
    -2, -1, 0, 1, 2, -2, -1, 0, 1, 2, -2, -1, 0, 1, 2, -2, -1, 0, 1, 2, -2, -1, 0, 1, 2,
];

/// Their rows.
const ROWS: [i16; PLACES] = [
    -2, -2, -2, -2, -2, -1, -1, -1, -1, -1, 0, 0, 0, 0, 0, 1, 1, 1, 1, 1, 2, 2, 2, 2, 2,
];

/// How the values rise along an axis: the sum of the steps, each by its distance, and that of the
/// squares of the distances.
#[derive(Clone, Copy)]
pub(crate) struct Slope {
    pub(crate) moment: i32,
    pub(crate) spread: i32,
}

/// How the values rise to the right and downwards.
#[derive(Clone, Copy)]
pub(crate) struct Slopes {
    pub(crate) across: Slope,
    pub(crate) down: Slope,
}

/// The step from `m` to a value, where there is one that isn't further away than that.
#[inline]
pub(crate) fn step_to(most: u16, m: u16, value: Option<u16>) -> Option<i16>
    requires most { most < 2 ^ 15 }
    ensures exact { result ≡ step_to most m value }
    ensures near { IfSome result (Within most) }
{
    let step = i32::from(value?) - i32::from(m);
    let most = i32::from(most);
    if -most <= step && step <= most {
        Some(step as i16)
    } else {
        None
    }
}

/// A slope with the step to one more pixel, so far from the middle along the axis, where there is
/// one. Nothing branches, so that the compiler puts pixels into lanes.
#[inline]
fn with_step(slope: Slope, distance: i16, step: Option<i16>) -> Slope
    requires slope { IsSlope slope }
    requires distance { Within 2 distance }
    requires step { IfSome step (Within 32) }
    ensures moment { result.moment ≡ slope.moment +ℤ (distance *ℤ unwrap_or step (pos 0)) }
    ensures spread { result.spread ≡ slope.spread
        +ℤ ((distance *ℤ distance) *ℤ (if is_some step then pos 1 else pos 0)) }
{
    let square = product(distance, distance);
    Slope {
        moment: slope.moment + product(distance, step.unwrap_or(0)),
        spread: slope.spread + if step.is_some() { square } else { 0 },
    }
}

/// The slopes of the values around the pixel (x, y), whose value is `m`.
pub(crate) fn slopes_at(map: &Field, x: usize, y: usize, m: u16) -> Slopes
    requires pixel { (x < 2 ^ 15) × (y < 2 ^ 15) }
    ensures holds { HoldsSlopes result (step_at map.now x y m) }
    ensures kept { IsSlope result.across × IsSlope result.down }
{
    let window = map.window(x, y);
    let level = Slope {
        moment: 0,
        spread: 0,
    };
    let (mut across, mut down) = (level, level);
    for k in 0..PLACES {
        let step = step_to(REACH, m, window[k]);
        across = with_step(across, COLUMNS[k], step);
        down = with_step(down, ROWS[k], step);
    }
    Slopes { across, down }
}

/// How far values rise over a distance, and over the same backwards.
#[derive(Clone, Copy)]
struct Rise {
    ahead: i32,
    behind: i32,
}

/// `a / b` and `-a / b`, each rounded to the nearest whole number, halves upwards:
/// floor((2a + b) / (2b)). The second one follows from the first.
#[inline]
fn quotients(a: i32, b: i32) -> Rise
    requires a { Within 3200 a }
    requires b { IsFromTo (pos 1) (pos 100) b }
    ensures ahead { result.ahead ≡ rounded a b }
    ensures behind { result.behind ≡ rounded (neg_ℤ a) b }
    ensures small { Within 6600 result.ahead × Within 6600 result.behind }
{
    let (above, below) = (2 * a + b, 2 * b);
    let ahead = above.div_euclid(below);
    Rise {
        ahead,
        behind: i32::from(ahead * below == above) - ahead,
    }
}

/// How far the values rise from the middle of a window to each of its columns or rows, rounded; 0
/// where nothing tells.
#[inline]
pub(crate) fn rises(slope: Slope) -> [i32; SIDE]
    requires slope { IsSlope slope }
    ensures each { (n : ℕ) → n < SIDE → number result n ≡ (if int_eq slope.spread (pos 0) then pos 0
        else rounded ((pos n -ℤ pos 2) *ℤ slope.moment) slope.spread) }
    ensures small { (n : ℕ) → n < SIDE → Within 6600 (number result n) }
{
    if slope.spread == 0 {
        return [0; SIDE];
    }
    let near = quotients(slope.moment, slope.spread);
    let far = quotients(2 * slope.moment, slope.spread);
    [far.behind, near.behind, 0, near.ahead, far.ahead]
}
