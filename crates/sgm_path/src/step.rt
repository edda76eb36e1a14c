ghost use Rattle.std.specs.Prelude.{◌≡◌, ℕ, ◌+◌, ◌≤◌, length, slice_index, All};
ghost use Rattle.std.specs.Prelude.{EachIndex, IfSome, IfNone, MatchOption, None, false};
ghost use Rattle.sgm_energy.specs.Dirs.{is_level};
ghost use Rattle.sgm_energy.specs.Pens.{penalties_of};
ghost use Rattle.sgm_energy.specs.Rays.{Problem, row_before};
ghost use Rattle.sgm_energy.specs.Energies.{path_value};
ghost use Rattle.sgm_energy.specs.Rows.{HoldsRow};
ghost use Rattle.sgm_path.specs.Paths.{AreCosts, CanAddRow, CanComeBefore, far_between, far_in};
ghost use Rattle.sgm_path.specs.Paths.{HoldsRowBefore, RowFollows, Suits, terms_of};

use crate::pixel::begin;
use crate::row_pass::RowPass;
use crate::sweep::sweep;
use sgm_base::{MAX_COUNT, MAX_PATH_VALUE};
use sgm_energy::{Dir, Pen};
use sgm_lanes::add;

/// Begins a direction at a row that nothing comes before: writes its path values, which are its
/// costs, and adds each to the sum at its place.
pub fn begin_row(row: &RowPass, values: &mut [u16], sums: &mut [u16])
    requires same_length { length values.old ≡ length (terms_of row.now).costs }
    requires sums { CanAddRow (terms_of row.now) sums.old }
    ensures bound { All (λ v. v ≤ MAX_PATH_VALUE) values.new }
    ensures added { EachIndex sums.new
        (λ k. slice_index sums.new k ≡ slice_index sums.old k + slice_index values.new k) }
    // Whatever row of whatever problem the costs belong to, these are its path values.
    ensures paths { (g : Problem) (y : ℕ)
        → Suits g y (terms_of row.now).penalties.p1 (terms_of row.now).count
        (terms_of row.now).costs
        → row_before (terms_of row.now).dir g.height y ≡ None
        → HoldsRow g y (path_value g (terms_of row.now).dir) values.new }
{
    begin(row.costs, values.len(), 0, values);
    add(sums, values);
}

/// Goes on to the next row of a direction that isn't level: `values` has the path values of the row
/// that the direction comes from, and then those of this one, each of which is added to the sum at
/// its place. All are rows of `count` entries a pixel. `spare` has room for a pixel, and what it
/// holds does not matter.
pub fn pass_row(row: &RowPass, values: &mut [u16], spare: &mut [u16], sums: &mut [u16])
    requires across { is_level (terms_of row.now).dir ≡ false }
    requires spare_length { (terms_of row.now).count ≤ length spare.old }
    requires same_length { length values.old ≡ length (terms_of row.now).costs }
    requires low { All (λ v. v ≤ MAX_PATH_VALUE) values.old }
    requires sums { CanAddRow (terms_of row.now) sums.old }
    ensures bound { All (λ v. v ≤ MAX_PATH_VALUE) values.new }
    ensures added { EachIndex sums.new
        (λ k. slice_index sums.new k ≡ slice_index sums.old k + slice_index values.new k) }
    // Whatever row of whatever problem the costs belong to, path values of the row before give its
    // path values.
    ensures paths { (g : Problem) (y : ℕ)
        → Suits g y (terms_of row.now).penalties.p1 (terms_of row.now).count
        (terms_of row.now).costs
        → HoldsRowBefore g (terms_of row.now).dir y (far_in (terms_of row.now)) values.old
        → HoldsRow g y (path_value g (terms_of row.now).dir) values.new }
{
    if row.pen.is_adaptive() {
        return sweep::<true, true, 0>(row, values, spare, sums);
    }
    // As for the level directions: the counts that most pictures ask for are compiled apart.
    match row.count {
        64 => sweep::<false, true, 64>(row, values, spare, sums),
        128 => sweep::<false, true, 128>(row, values, spare, sums),
        _ => sweep::<false, true, 0>(row, values, spare, sums),
    }
}

/// Writes the path values of one row, in a direction that comes from the row above or below.
/// `costs`, `before` and `into` are rows of `count` entries a pixel, no cost is above `MAX_COST`
/// and no value of `before` above `MAX_PATH_VALUE`. `before` has the values of the row that the
/// direction comes from, and is None where the image has no such row. `guide` and `guide_before`
/// have the grey values of the row and of the row that the direction comes from, one entry a pixel;
/// `guide_before` isn't looked at where there is no such row. A pixel without a predecessor in the
/// image has its costs alone. Every other has what the recurrence gives from the values of its
/// predecessor in `before`: so they are path values where `before` has path values.
pub fn step_row(
    dir: Dir,
    pen: Pen,
    costs: &[u8],
    before: Option<&[u16]>,
    guide: &[Option<u8>],
    guide_before: &[Option<u8>],
    count: usize,
    into: &mut [u16],
)
    requires across { is_level dir ≡ false }
    requires costs { AreCosts count guide.now costs.now }
    requires same_length { length costs.now ≡ length into.old }
    requires before { IfSome before
        (λ b. CanComeBefore count guide_before.now b.now (length into.old)) }
    ensures bound { All (λ v. v ≤ MAX_PATH_VALUE) into.new }
    ensures costs_alone { IfNone before.entry
        (EachIndex into.new (λ k. slice_index into.new k ≡ slice_index costs.now k)) }
    ensures each { let far = far_between (penalties_of pen) guide.now guide_before.now in
        IfSome before.entry
        (λ b. RowFollows dir count (penalties_of pen).p1 far b.now costs.now into.new) }
    // Whatever row of whatever problem the costs belong to, path values of the row before give its
    // path values.
    ensures paths { (g : Problem) (y : ℕ) → Suits g y (penalties_of pen).p1 count costs.now
        → MatchOption before.entry (row_before dir g.height y ≡ None)
        (λ b. HoldsRowBefore g dir y
        (far_between (penalties_of pen) guide.now guide_before.now) b.now)
        → HoldsRow g y (path_value g dir) into.new }
{
    match before {
        Some(before) => {
            into.copy_from_slice(before);
            let row = RowPass::make(dir, pen, costs, guide, guide_before, count);
            let mut spare = [0u16; MAX_COUNT as usize];
            if pen.is_adaptive() {
                sweep::<true, false, 0>(&row, into, &mut spare, &mut []);
            } else {
                sweep::<false, false, 0>(&row, into, &mut spare, &mut []);
            }
        }
        None => begin(costs, into.len(), 0, into),
    }
}
