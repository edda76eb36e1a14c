// Sixteen values of 16 bits side by side, and what each operation on them gives at each lane.
ghost use Rattle.std.specs.Prelude.{◌≡◌, ◌≢◌, ℕ, ◌<◌, ◌≤◌, ◌+◌, ◌-◌, ◌^◌, ◌⊎◌, length, slice_index};
ghost use Rattle.std.specs.Prelude.{min};

use std::simd::prelude::*;

/// How many values stand side by side.
pub(crate) const LANES: usize = 16;

/// The same value in each lane.
#[inline(always)]
pub(crate) fn repeated(value: u16) -> u16x16
    ensures len { length result ≡ LANES }
    ensures each { (i : ℕ) → i < LANES → slice_index result i ≡ value }
{
    u16x16::splat(value)
}

/// The lesser of two values in each lane.
#[inline(always)]
pub(crate) fn lesser(a: u16x16, b: u16x16) -> u16x16
    requires { (length a ≡ LANES) × (length b ≡ LANES) }
    ensures len { length result ≡ LANES }
    ensures each { (i : ℕ) → i < LANES
        → slice_index result i ≡ min (slice_index a i) (slice_index b i) }
{
    a.simd_min(b)
}

/// The sum of two values in each lane.
#[inline(always)]
pub(crate) fn plus(a: u16x16, b: u16x16) -> u16x16
    requires lens { (length a ≡ LANES) × (length b ≡ LANES) }
    requires fits { (i : ℕ) → i < LANES → slice_index a i + slice_index b i < 2 ^ 16 }
    ensures len { length result ≡ LANES }
    ensures each { (i : ℕ) → i < LANES → slice_index result i ≡ slice_index a i + slice_index b i }
{
    a.strict_add(b)
}

/// The difference of two values in each lane.
#[inline(always)]
pub(crate) fn minus(a: u16x16, b: u16x16) -> u16x16
    requires lens { (length a ≡ LANES) × (length b ≡ LANES) }
    requires fits { (i : ℕ) → i < LANES → slice_index b i ≤ slice_index a i }
    ensures len { length result ≡ LANES }
    ensures each { (i : ℕ) → i < LANES → slice_index result i ≡ slice_index a i - slice_index b i }
{
    a.strict_sub(b)
}

/// The values from `at` on.
#[inline(always)]
pub(crate) fn load(values: &[u16], at: usize) -> u16x16
    requires { at + LANES ≤ length values.now }
    ensures len { length result ≡ LANES }
    ensures each { (i : ℕ) → i < LANES → slice_index result i ≡ slice_index values.now (at + i) }
{
    u16x16::from_slice(&values[at..])
}

/// The bytes from `at` on.
#[inline(always)]
pub(crate) fn load_bytes(bytes: &[u8], at: usize) -> u16x16
    requires { at + LANES ≤ length bytes.now }
    ensures len { length result ≡ LANES }
    ensures each { (i : ℕ) → i < LANES → slice_index result i ≡ slice_index bytes.now (at + i) }
{
    u8x16::from_slice(&bytes[at..]).cast()
}

/// Writes the lanes from `at` on.
#[inline(always)]
pub(crate) fn store(lanes: u16x16, at: usize, into: &mut [u16])
    requires { (at + LANES ≤ length into.old) × (length lanes ≡ LANES) }
    ensures inside { (i : ℕ) → i < LANES → slice_index into.new (at + i) ≡ slice_index lanes i }
    ensures outside { (k : ℕ) → (k < at) ⊎ (at + LANES ≤ k)
        → slice_index into.new k ≡ slice_index into.old k }
{
    lanes.copy_to_slice(&mut into[at..]);
}

/// Adds the lanes to the values from `at` on.
#[inline(always)]
pub(crate) fn increase(lanes: u16x16, at: usize, sums: &mut [u16])
    requires inside { (at + LANES ≤ length sums.old) × (length lanes ≡ LANES) }
    requires fits { (i : ℕ) → i < LANES
        → slice_index sums.old (at + i) + slice_index lanes i < 2 ^ 16 }
    ensures inside { (i : ℕ) → i < LANES
        → slice_index sums.new (at + i) ≡ slice_index sums.old (at + i) + slice_index lanes i }
    ensures outside { (k : ℕ) → (k < at) ⊎ (at + LANES ≤ k)
        → slice_index sums.new k ≡ slice_index sums.old k }
{
    let both = plus(load(sums, at), lanes);
    store(both, at, sums);
}

/// Each lane's left neighbour: that of the first is the last of `behind`.
#[inline(always)]
pub(crate) fn neighbours_left(behind: u16x16, lanes: u16x16) -> u16x16
    requires { (length behind ≡ LANES) × (length lanes ≡ LANES) }
    ensures len { length result ≡ LANES }
    ensures first { slice_index result 0 ≡ slice_index behind 15 }
    ensures others { (i : ℕ) → i < 15 → slice_index result (i + 1) ≡ slice_index lanes i }
{
    behind.shuffle(
        lanes,
        [
            15, 16, 17, 18, 19, 20, 21, 22, 23, 24, 25, 26, 27, 28, 29, 30,
        ],
    )
}

/// Each lane's right neighbour: that of the last is the first of `ahead`.
#[inline(always)]
pub(crate) fn neighbours_right(lanes: u16x16, ahead: u16x16) -> u16x16
    requires { (length ahead ≡ LANES) × (length lanes ≡ LANES) }
    ensures len { length result ≡ LANES }
    ensures others { (i : ℕ) → i < 15 → slice_index result i ≡ slice_index lanes (i + 1) }
    ensures last { slice_index result 15 ≡ slice_index ahead 0 }
{
    lanes.shuffle(
        ahead,
        [1, 2, 3, 4, 5, 6, 7, 8, 9, 10, 11, 12, 13, 14, 15, 16],
    )
}
