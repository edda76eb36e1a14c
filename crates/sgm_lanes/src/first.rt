ghost use Rattle.std.specs.Prelude.{◌≡◌, ◌≢◌, ℕ, ◌+◌, ◌<◌, ◌≤◌, length, slice_index, Contains};

use crate::lane::LANES;
use std::simd::prelude::*;

/// How many of sixteen values from `at` on come before the first that is this one: all sixteen
/// where none is.
#[inline(always)]
fn before_first(values: &[u16], at: usize, value: u16) -> usize
    requires inside { at + LANES ≤ length values.now }
    ensures others { (i : ℕ) → i < result → slice_index values.now (at + i) ≢ value }
    ensures here { result < LANES → slice_index values.now (at + result) ≡ value }
    ensures most { result ≤ LANES }
{
    let lanes = u16x16::from_slice(&values[at..]);
    let marks = lanes.simd_eq(u16x16::splat(value)).to_bitmask();
    if marks == 0 {
        return LANES;
    }
    marks.trailing_zeros() as usize
}

/// The first index from `start` on at which a value stands that stands at none before.
fn first_from(values: &[u16], start: usize, value: u16) -> usize
    requires there { Contains values.now value }
    requires others { (d : ℕ) → d < start → slice_index values.now d ≢ value }
    ensures inside { result < length values.now }
    ensures here { slice_index values.now result ≡ value }
    ensures others { (d : ℕ) → d < result → slice_index values.now d ≢ value }
{
    for d in start..values.len() {
        if values[d] == value {
            return d;
        }
    }
    unreachable!()
}

/// The first index at which a value stands that is one of these.
#[inline(always)]
pub fn first_of(values: &[u16], value: u16) -> usize
    requires { Contains values.now value }
    ensures inside { result < length values.now }
    ensures here { slice_index values.now result ≡ value }
    ensures others { (d : ℕ) → d < result → slice_index values.now d ≢ value }
{
    let chunks = values.len() / LANES;
    for number in 0..chunks {
        let before = before_first(values, LANES * number, value);
        if before < LANES {
            return LANES * number + before;
        }
    }
    first_from(values, LANES * chunks, value)
}
