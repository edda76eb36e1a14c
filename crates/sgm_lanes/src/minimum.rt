ghost use Rattle.std.specs.Prelude.{◌≡◌, ℕ, ◌*◌, ◌/◌, ◌%◌, ◌<◌, ◌≤◌, length, slice_index, All};
ghost use Rattle.std.specs.Prelude.{Contains};

use crate::lane::{LANES, lesser, load};
use std::simd::prelude::*;

/// The least of some numbers, one after the other.
#[inline(always)]
fn least_of_few(v: &[u16]) -> u16
    requires { 0 < length v.now }
    ensures contained { Contains v.now result }
    ensures least { All (λ x. result ≤ x) v.now }
{
    let mut low = v[0];
    for x in v {
        if *x < low {
            low = *x;
        }
    }
    low
}

/// The least of each lane over the whole chunks of the numbers.
#[inline(always)]
fn least_by_lane(v: &[u16]) -> u16x16
    requires { LANES ≤ length v.now }
    ensures len { length result ≡ LANES }
    ensures contained { (i : ℕ) → i < LANES → Contains v.now (slice_index result i) }
    ensures least { (k : ℕ) → k < LANES * (length v.now / LANES)
        → slice_index result (k % LANES) ≤ slice_index v.now k }
{
    let mut low = load(v, 0);
    for number in 1..v.len() / LANES {
        low = lesser(low, load(v, LANES * number));
    }
    low
}

/// The least of the whole chunks of the numbers; where there is none, the first number.
#[inline(always)]
fn least_of_chunks(v: &[u16]) -> u16
    requires { 0 < length v.now }
    ensures contained { Contains v.now result }
    ensures least { (k : ℕ) → k < LANES * (length v.now / LANES) → result ≤ slice_index v.now k }
{
    if v.len() < LANES {
        return v[0];
    }
    least_of_few(&least_by_lane(v).to_array())
}

/// The least of some numbers, of which there is at least one.
#[inline(always)]
pub fn least(v: &[u16]) -> u16
    requires { 0 < length v.now }
    ensures contained { Contains v.now result }
    ensures least { All (λ x. result ≤ x) v.now }
{
    let mut low = least_of_chunks(v);
    for i in LANES * (v.len() / LANES)..v.len() {
        if v[i] < low {
            low = v[i];
        }
    }
    low
}
