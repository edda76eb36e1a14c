//! Samples made small, so that their products fit.

ghost use Rattle.std.specs.Prelude.{◌≡◌, ℕ, ◌-◌, ◌/◌, ◌^◌, ◌<◌, ◌≤◌, ◌++◌, pos, slice_index};
ghost use Rattle.sgm_fine.specs.Samples.{IsWindow};
ghost use Rattle.sgm_fine.specs.Small.{HoldsSmall, IsGreatest, IsLeast, IsSmall, halved};
ghost use Rattle.sgm_fine.specs.Windows.{IsPadded, number};

use crate::samples::{Samples, Window};
use crate::sums::{Numbers, PLACES, zeros};

/// A window whose samples are made small.
#[derive(Clone, Copy)]
pub(crate) struct SmallWindow {
    pub(crate) left: Numbers,
    pub(crate) after: Numbers,
    pub(crate) here: Numbers,
    pub(crate) before: Numbers,
}

/// The least of some samples.
#[inline]
fn least_of(samples: &Samples) -> u32
    ensures { IsLeast result samples.now }
{
    let mut least = samples[0];
    for k in 0..PLACES {
        least = least.min(samples[k]);
    }
    least
}

/// The greatest of some samples.
#[inline]
fn greatest_of(samples: &Samples) -> u32
    ensures { IsGreatest result samples.now }
{
    let mut greatest = samples[0];
    for k in 0..PLACES {
        greatest = greatest.max(samples[k]);
    }
    greatest
}

/// The least of the samples at three offsets.
#[inline]
fn least_of_three(after: &Samples, here: &Samples, before: &Samples) -> u32
    ensures { IsLeast result (after.now ++ here.now ++ before.now) }
{
    let first = least_of(after).min(least_of(here));
    first.min(least_of(before))
}

/// The greatest of the samples at three offsets.
#[inline]
fn greatest_of_three(after: &Samples, here: &Samples, before: &Samples) -> u32
    ensures { IsGreatest result (after.now ++ here.now ++ before.now) }
{
    let first = greatest_of(after).max(greatest_of(here));
    first.max(greatest_of(before))
}

/// How often a number has to be halved until it has no more than so many bits.
#[inline]
fn halvings_to(bits: u32, number: u32) -> u32
    requires number { number < 2 ^ 20 }
    ensures few { result ≤ 20 }
    ensures enough { number / 2 ^ result < 2 ^ bits }
    ensures least { (j : ℕ) → j < result → 2 ^ bits ≤ number / 2 ^ j }
{
    (u32::BITS - number.leading_zeros()).saturating_sub(bits)
}

/// The samples less the least one, halved so often.
#[inline]
fn made_small(samples: &Samples, least: u32, halvings: u32) -> Numbers
    requires few { halvings ≤ 20 }
    requires least { (k : ℕ) → k < PLACES → least ≤ slice_index samples.now k }
    requires small { (k : ℕ) → k < PLACES
        → halved least halvings (slice_index samples.now k) < 4096 }
    ensures each { (k : ℕ) → k < PLACES → number result k
        ≡ pos (halved least halvings (slice_index samples.now k)) }
    ensures padded { IsPadded result }
{
    let mut numbers = zeros();
    for k in 0..PLACES {
        numbers[k] = ((samples[k] - least) >> halvings) as i16;
    }
    numbers
}

/// The window made small: on the left below 256, on the right below 4096.
pub(crate) fn small_window(window: &Window) -> SmallWindow
    requires { IsWindow window.now }
    ensures holds { HoldsSmall result window.now }
    ensures kept { IsSmall result }
{
    let low = least_of(&window.left);
    let left = halvings_to(8, greatest_of(&window.left) - low);
    let least = least_of_three(&window.after, &window.here, &window.before);
    let most = greatest_of_three(&window.after, &window.here, &window.before);
    let right = halvings_to(12, most - least);
    SmallWindow {
        left: made_small(&window.left, low, left),
        after: made_small(&window.after, least, right),
        here: made_small(&window.here, least, right),
        before: made_small(&window.before, least, right),
    }
}
