// Costs smoothed along a row, pixel by pixel: half of a cost's weight is left to those before and
// after it.
ghost use Rattle.std.specs.Prelude.{◌≡◌, ℕ, ◌≤◌, length, slice_index, All, EachIndex};
ghost use Rattle.sgm_lanes.specs.Middles.{smoothed};

use sgm_base::MAX_COST;

/// Smooths a pixel's costs, which stand in `cells`, between those of the pixels before and after
/// it. Then `before` has the costs of `cells` as they were, for the next pixel of the row. The
/// three slices have one length.
pub fn smooth(before: &mut [u8], cells: &mut [u8], after: &[u8])
    requires before_length { length before.old ≡ length cells.old }
    requires after_length { length after.now ≡ length cells.old }
    requires before_small { All (λ c. c ≤ MAX_COST) before.old }
    requires small { All (λ c. c ≤ MAX_COST) cells.old }
    requires after_small { All (λ c. c ≤ MAX_COST) after.now }
    ensures each { EachIndex cells.new (λ k. slice_index cells.new k
        ≡ smoothed (slice_index before.old k) (slice_index cells.old k) (slice_index after.now k)) }
    ensures kept { EachIndex before.new (λ k. slice_index before.new k ≡ slice_index cells.old k) }
{
    for i in 0..cells.len() {
        let here = cells[i];
        cells[i] = (before[i] + 2 * here + after[i]) / 4;
        before[i] = here;
    }
}

/// Smooths the costs of a row's last pixel, which stand for those after it too. The two slices have
/// one length.
pub fn smooth_last(before: &[u8], cells: &mut [u8])
    requires before_length { length before.now ≡ length cells.old }
    requires before_small { All (λ c. c ≤ MAX_COST) before.now }
    requires small { All (λ c. c ≤ MAX_COST) cells.old }
    ensures { EachIndex cells.new (λ k. slice_index cells.new k
        ≡ smoothed (slice_index before.now k) (slice_index cells.old k) (slice_index cells.old k)) }
{
    for i in 0..cells.len() {
        let here = cells[i];
        cells[i] = (before[i] + 3 * here) / 4;
    }
}
