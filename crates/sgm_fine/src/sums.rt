//! Sums over the pixels of a window.

ghost use Rattle.std.specs.Prelude.{◌≡◌, ℕ, ◌<◌, ◌*ℤ◌, pos};
ghost use Rattle.sgm_base.specs.Ranges.{Within};
ghost use Rattle.sgm_fine.specs.Windows.{IsPadded, number, over, products};

/// The columns of a window, and the rows.
pub(crate) const SIDE: usize = 5;

/// The pixels of a window, row by row.
pub(crate) const PLACES: usize = 25;

/// The lanes that the numbers of a window take: whole registers.
pub(crate) const LANES: usize = 32;

/// A number of each pixel of a window, and 0 in the lanes behind.
pub(crate) type Numbers = [i16; LANES];

/// No numbers yet: 0 in each lane.
#[inline]
pub(crate) fn zeros() -> Numbers
    ensures { (k : ℕ) → number result k ≡ pos 0 }
{
    [0; LANES]
}

/// The product of two numbers.
#[inline]
pub(crate) fn product(a: i16, b: i16) -> i32
    requires a_small { Within 4096 a }
    requires b_small { Within 4096 b }
    ensures value { result ≡ a *ℤ b }
    ensures small { Within 16777216 result }
{
    i32::from(a) * i32::from(b)
}

/// The sum of the products of two numbers of each pixel. The compiler puts them into lanes where
/// this is a function by itself; those behind add nothing.
#[inline(never)]
pub(crate) fn products_of(a: &Numbers, b: &Numbers) -> i32
    requires a_small { (k : ℕ) → k < PLACES → Within 4096 (number a.now k) }
    requires b_small { (k : ℕ) → k < PLACES → Within 4096 (number b.now k) }
    requires padded { IsPadded a.now × IsPadded b.now }
    ensures { result ≡ products (number a.now) (number b.now) }
{
    let mut sum = 0;
    for k in 0..LANES {
        sum += product(a[k], b[k]);
    }
    sum
}

/// The sum of a number of each pixel.
#[inline(never)]
pub(crate) fn total_of(a: &Numbers) -> i32
    requires small { (k : ℕ) → k < PLACES → Within 4096 (number a.now k) }
    requires padded { IsPadded a.now }
    ensures { result ≡ over (number a.now) }
{
    let mut sum = 0;
    for k in 0..LANES {
        sum += i32::from(a[k]);
    }
    sum
}
