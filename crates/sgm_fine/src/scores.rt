//! How well the right window explains the left one at each of seventeen places.

ghost use Rattle.std.specs.Prelude.{◌≡◌, ℕ, ◌<◌, ◌≤◌, ◌-◌, ◌*◌, ◌^◌, ℤ, pos, ◌+ℤ◌, ◌-ℤ◌, ◌*ℤ◌};
ghost use Rattle.std.specs.Prelude.{◌+◌, if◌then◌else◌, int_lt};
ghost use Rattle.sgm_base.specs.Ranges.{IsFromTo, Within};
ghost use Rattle.sgm_fine.specs.Scores.{AreParts, HoldsPart, HoldsParts, HoldsSide, HoldsSums};
ghost use Rattle.sgm_fine.specs.Scores.{HoldsWalk, IsFitOf, IsPart, IsSums, IsWalk, blended};
ghost use Rattle.sgm_fine.specs.Scores.{covariance};
ghost use Rattle.sgm_fine.specs.Small.{IsSmall};
ghost use Rattle.sgm_fine.specs.Windows.{IsPadded, number, over, products};

use crate::small::SmallWindow;
use crate::sums::{Numbers, PLACES, products_of, total_of};

/// Sums over one side's numbers: of themselves, of their products with those on the left, of their
/// squares.
#[derive(Clone, Copy)]
pub(crate) struct Sums {
    pub(crate) sum: i32,
    pub(crate) left: i32,
    pub(crate) square: i32,
}

/// The sums of a window, from which the scores at all places follow.
#[derive(Clone, Copy)]
pub(crate) struct WindowSums {
    pub(crate) left: i32,
    pub(crate) square: i32,
    pub(crate) after: Sums,
    pub(crate) here: Sums,
    pub(crate) before: Sums,
    pub(crate) with_after: i32,
    pub(crate) with_before: i32,
}

/// How one offset's numbers vary together with those on the left and with those of no offset, and
/// by themselves.
#[derive(Clone, Copy)]
pub(crate) struct Part {
    pub(crate) left: i64,
    pub(crate) cross: i64,
    pub(crate) own: i64,
}

/// How the numbers of a window vary, from which the scores at all places follow: those on the left
/// by themselves, and those of no offset, after and before.
#[derive(Clone, Copy)]
pub(crate) struct Parts {
    pub(crate) alone: i64,
    pub(crate) here: Part,
    pub(crate) after: Part,
    pub(crate) before: Part,
}

/// How the left numbers and the right ones vary together, and the right ones by themselves.
#[derive(Clone, Copy)]
pub(crate) struct Fit {
    pub(crate) together: i64,
    pub(crate) right: i64,
}

/// A walk over the places on one side of the pixel's own: the fit at the place that is reached, and
/// what the next one adds. How both vary together grows by the same at each place; how the right
/// ones vary grows by a number that itself grows by the same.
#[derive(Clone, Copy)]
pub(crate) struct Walk {
    pub(crate) fit: Fit,
    further: i64,
    more: i64,
    bend: i64,
}

/// Sums over the numbers of one offset.
#[inline]
fn sums_of(left: &Numbers, right: &Numbers) -> Sums
    requires left { (k : ℕ) → k < PLACES → IsFromTo (pos 0) (pos 255) (number left.now k) }
    requires right { (k : ℕ) → k < PLACES → IsFromTo (pos 0) (pos 4095) (number right.now k) }
    requires padded { IsPadded left.now × IsPadded right.now }
    ensures holds { HoldsSide result (number left.now) (number right.now) }
    ensures kept { IsFromTo (pos 0) (pos 102375) result.sum }
{
    Sums {
        sum: total_of(right),
        left: products_of(left, right),
        square: products_of(right, right),
    }
}

/// The sums of a window.
pub(crate) fn window_sums(window: &SmallWindow) -> WindowSums
    requires { IsSmall window.now }
    ensures holds { HoldsSums result window.now }
    ensures kept { IsSums result }
{
    WindowSums {
        left: total_of(&window.left),
        square: products_of(&window.left, &window.left),
        after: sums_of(&window.left, &window.after),
        here: sums_of(&window.left, &window.here),
        before: sums_of(&window.left, &window.before),
        with_after: products_of(&window.here, &window.after),
        with_before: products_of(&window.here, &window.before),
    }
}

/// A covariance: so many times the sum of products as there are places, less the product of the
/// sums.
#[inline]
fn covariance_of(products: i64, a: i64, b: i64) -> i64
    requires products { Within (2 ^ 41) products }
    requires a { Within (2 ^ 20) a }
    requires b { Within (2 ^ 20) b }
    ensures value { result ≡ (pos PLACES *ℤ products) -ℤ (a *ℤ b) }
    ensures small { Within (2 ^ 46) result }
{
    PLACES as i64 * products - a * b
}

/// The covariance of numbers from the sums of their products and of both.
#[inline]
fn covariance_from(products: i32, a: i32, b: i32) -> i64
    requires a { IsFromTo (pos 0) (pos 102375) a }
    requires b { IsFromTo (pos 0) (pos 102375) b }
    ensures value { result ≡ (pos PLACES *ℤ products) -ℤ (a *ℤ b) }
    ensures small { Within (2 ^ 46) result }
{
    covariance_of(i64::from(products), i64::from(a), i64::from(b))
}

/// How the numbers of one offset vary.
#[inline]
fn part_of(left: i32, here: i32, side: Sums, cross: i32) -> Part
    requires left { IsFromTo (pos 0) (pos 6375) left }
    requires here { IsFromTo (pos 0) (pos 102375) here }
    requires side { IsFromTo (pos 0) (pos 102375) side.sum }
    ensures holds { (l h s : ℕ → ℤ) → left ≡ over l → here ≡ over h → HoldsSide side l s
        → cross ≡ products h s → HoldsPart result l h s }
    ensures kept { IsPart result }
{
    Part {
        left: covariance_from(side.left, left, side.sum),
        cross: covariance_from(cross, here, side.sum),
        own: covariance_from(side.square, side.sum, side.sum),
    }
}

/// How the numbers of a window vary.
pub(crate) fn parts_of(sums: &WindowSums) -> Parts
    requires { IsSums sums.now }
    ensures holds { (w : SmallWindow) → HoldsSums sums.now w → HoldsParts result w }
    ensures kept { AreParts result }
{
    let here = sums.here.sum;
    Parts {
        alone: covariance_from(sums.square, sums.left, sums.left),
        here: part_of(sums.left, here, sums.here, sums.here.square),
        after: part_of(sums.left, here, sums.after, sums.with_after),
        before: part_of(sums.left, here, sums.before, sums.with_before),
    }
}

/// `n` eighths of the way from one covariance to another, eight times as great.
#[inline]
fn blend(n: u32, here: i64, side: i64) -> i64
    requires eighths { n ≤ 8 }
    requires here { Within (2 ^ 55) here }
    requires side { Within (2 ^ 55) side }
    ensures value { result ≡ (pos (8 - n) *ℤ here) +ℤ (pos n *ℤ side) }
    ensures small { (m : ℕ) → Within m here → Within m side → Within (8 * m) result }
{
    8 * here + i64::from(n) * (side - here)
}

/// How the numbers of the offset vary on whose side the place `c` lies.
#[inline]
fn side_of(parts: &Parts, c: i32) -> Part
    ensures { result ≡ (if int_lt c (pos 0) then parts.now.after else parts.now.before) }
{
    if c < 0 { parts.after } else { parts.before }
}

/// The fit of numbers that lie `n` eighths of the way from those of no offset to those of another
/// one.
#[inline]
fn fit_between(here: Part, side: Part, n: u32) -> Fit
    requires eighths { n ≤ 8 }
    requires here { IsPart here }
    requires side { IsPart side }
    ensures { (l h s : ℕ → ℤ) → HoldsPart here l h h → HoldsPart side l h s
        → (result.together ≡ covariance l (blended h s n))
        × (result.right ≡ covariance (blended h s n) (blended h s n)) }
{
    let nearer = blend(n, here.own, side.cross);
    let further = blend(n, side.cross, side.own);
    Fit {
        together: blend(n, here.left, side.left),
        right: blend(n, nearer, further),
    }
}

/// The fit at the place `c` from -8 to 8.
#[inline]
pub(crate) fn fit_at(parts: &Parts, c: i32) -> Fit
    requires parts { AreParts parts.now }
    requires place { Within 8 c }
    ensures { (w : SmallWindow) → HoldsParts parts.now w → IsFitOf result w c }
{
    fit_between(parts.here, side_of(parts, c), c.unsigned_abs())
}

/// The walk from the pixel's own place, where it starts, to the offset of `side`.
#[inline]
pub(crate) fn walk_from(here: Part, side: Part) -> Walk
    requires here { IsPart here }
    requires side { IsPart side }
    ensures { (l h s : ℕ → ℤ) → HoldsPart here l h h → HoldsPart side l h s
        → HoldsWalk result l h s 0 }
{
    // How the distances from the numbers here to those there vary: with the numbers here, and by
    // themselves.
    let with_here = side.cross - here.own;
    let alone = side.own - side.cross - with_here;
    Walk {
        fit: Fit {
            together: 8 * here.left,
            right: 64 * here.own,
        },
        further: side.left - here.left,
        more: 16 * with_here + alone,
        bend: 2 * alone,
    }
}

/// The walk one place further.
#[inline]
pub(crate) fn advanced(walk: Walk) -> Walk
    requires { IsWalk walk }
    ensures { (l h s : ℕ → ℤ) (n : ℕ) → n < 8 → HoldsWalk walk l h s n
        → HoldsWalk result l h s (n + 1) }
{
    Walk {
        fit: Fit {
            together: walk.fit.together + walk.further,
            right: walk.fit.right + walk.more,
        },
        further: walk.further,
        more: walk.more + walk.bend,
        bend: walk.bend,
    }
}
