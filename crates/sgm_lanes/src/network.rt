// The middle of five values: a network of the lesser and the greater of two, which the compiler
// puts into lanes.
ghost use Rattle.std.specs.Prelude.{◌≡◌, ℕ, length, slice_index, EachIndex};
ghost use Rattle.sgm_lanes.specs.Middles.{middle_of};

/// The third smallest of five values: a pixel's own, and those to the right, to the left, below and
/// above.
#[inline(always)]
pub fn middle(own: u16, right: u16, left: u16, below: u16, above: u16) -> u16
    ensures { result ≡ middle_of own right left below above }
{
    let low = right.min(left).max(below.min(above));
    let high = right.max(left).min(below.max(above));
    low.min(high).max(own.min(low.max(high)))
}

/// Writes, for each place, the [`middle`] of the five values there. The six slices have one length.
pub fn middles(
    own: &[u16],
    right: &[u16],
    left: &[u16],
    below: &[u16],
    above: &[u16],
    into: &mut [u16],
)
    requires own_length { length own.now ≡ length into.old }
    requires right_length { length right.now ≡ length into.old }
    requires left_length { length left.now ≡ length into.old }
    requires below_length { length below.now ≡ length into.old }
    requires above_length { length above.now ≡ length into.old }
    ensures { EachIndex into.new (λ k. slice_index into.new k
        ≡ middle_of (slice_index own.now k) (slice_index right.now k) (slice_index left.now k)
        (slice_index below.now k) (slice_index above.now k)) }
{
    for i in 0..into.len() {
        into[i] = middle(own[i], right[i], left[i], below[i], above[i]);
    }
}
