ghost use Rattle.std.specs.Prelude.{◌≡◌, ℕ, ◌+◌, ◌*◌, ◌/◌, ◌^◌, ◌<◌, ◌≤◌, length, slice_index};
ghost use Rattle.std.specs.Prelude.{EachIndex};

use crate::lane::{LANES, increase, load};

/// Adds the values from `start` on to the sums at their places.
#[inline(always)]
pub(crate) fn add_rest(sums: &mut [u16], v: &[u16], start: usize)
    requires same_length { length sums.old ≡ length v.now }
    requires fits { (k : ℕ) → start ≤ k → k < length sums.old
        → slice_index sums.old k + slice_index v.now k < 2 ^ 16 }
    ensures before { (k : ℕ) → k < start → slice_index sums.new k ≡ slice_index sums.old k }
    ensures each { (k : ℕ) → start ≤ k → k < length sums.old
        → slice_index sums.new k ≡ slice_index sums.old k + slice_index v.now k }
{
    for i in start..sums.len() {
        sums[i] += v[i];
    }
}

/// Adds the values of the whole chunks to the sums at their places.
#[inline(always)]
fn add_chunks(sums: &mut [u16], v: &[u16])
    requires same_length { length sums.old ≡ length v.now }
    requires fits { EachIndex sums.old (λ k. slice_index sums.old k + slice_index v.now k
        < 2 ^ 16) }
    ensures each { (k : ℕ) → k < LANES * (length sums.old / LANES)
        → slice_index sums.new k ≡ slice_index sums.old k + slice_index v.now k }
    ensures rest { (k : ℕ) → LANES * (length sums.old / LANES) ≤ k
        → slice_index sums.new k ≡ slice_index sums.old k }
{
    for number in 0..sums.len() / LANES {
        let at = LANES * number;
        increase(load(v, at), at, sums);
    }
}

/// Adds to each sum the value at its place. The two slices have one length, and each result fits 16
/// bits.
pub fn add(sum: &mut [u16], v: &[u16])
    requires same_length { length sum.old ≡ length v.now }
    requires fits { EachIndex sum.old (λ k. slice_index sum.old k + slice_index v.now k < 2 ^ 16) }
    ensures { EachIndex sum.new (λ k. slice_index sum.new k
        ≡ slice_index sum.old k + slice_index v.now k) }
{
    add_chunks(sum, v);
    add_rest(sum, v, LANES * (sum.len() / LANES));
}
