// A row of path values that takes the place of the row that it comes from.
ghost use Rattle.std.specs.Prelude.{◌≡◌, ℕ, ◌+◌, ◌*◌, ◌<◌, ◌≤◌, ◌⊎◌, length, slice_index, All};
ghost use Rattle.std.specs.Prelude.{EachIndex, IsTrue, Some, false};
ghost use Rattle.sgm_energy.specs.Dirs.{is_level};
ghost use Rattle.sgm_energy.specs.Pens.{penalties_of};
ghost use Rattle.sgm_energy.specs.Rays.{column_before};
ghost use Rattle.sgm_path.specs.Paths.{AddsPixel, AreRows, CanAdd, CanAddRow, column_at};
ghost use Rattle.sgm_path.specs.Paths.{ColumnFollows, far_in, IsLowAt, row_from, RowFollows};
ghost use Rattle.sgm_path.specs.Paths.{terms_of};

use crate::pixel::{begin_at, far_at, from_itself, from_left, from_right};
use crate::row_pass::RowPass;
use sgm_base::MAX_PATH_VALUE;
use sgm_energy::Dir;

/// The column that is the `i`-th to be gone through: no value is written over that is still needed.
#[inline(always)]
pub(crate) fn column(dir: Dir, width: usize, i: usize) -> usize
    requires inside { i < width }
    ensures value { result ≡ column_at dir width i }
    ensures inside { result < width }
{
    match dir {
        Dir::Left | Dir::DownRight | Dir::UpRight => width - 1 - i,
        _ => i,
    }
}

/// The values of the column `x`, from those that the row holds where the direction comes from.
/// `ADAPTIVE` is whether the pen is, so that a row with a fixed pen doesn't look at the guide, and
/// `ADD` whether each value is added to the sum at its place. `COUNT` is the row's, so that each
/// row that is compiled apart has a step of its own, which one place calls. What `spare` holds does
/// not matter; in a level direction it isn't looked at.
#[inline(always)]
fn step_at<const ADAPTIVE: bool, const ADD: bool, const COUNT: usize>(
    row: &RowPass,
    x: usize,
    values: &mut [u16],
    spare: &mut [u16],
    sums: &mut [u16],
)
    requires kind { (penalties_of row.now.pen).adaptive ≡ ADAPTIVE }
    requires inside { x < length row.now.guide.now }
    requires lengths { AreRows (terms_of row.now) values.old spare.old }
    requires low { (z : ℕ) → column_before row.now.dir (length row.now.guide.now) x ≡ Some z
        → IsLowAt (z * row.now.count) row.now.count values.old }
    requires sums { IsTrue ADD → CanAdd (terms_of row.now) (x * row.now.count) sums.old }
    ensures follows { ColumnFollows (terms_of row.now) x values.old values.new }
    ensures bound { IsLowAt (x * row.now.count) row.now.count values.new }
    ensures added { IsTrue ADD → AddsPixel (x * row.now.count) row.now.count
        (λ d. slice_index values.new (x * row.now.count + d)) sums.old sums.new }
{
    let at = x * row.count;
    match row.dir.column_before(row.guide.len(), x) {
        None => begin_at::<ADD>(row, at, values, sums),
        Some(z) => {
            let far = far_at::<ADAPTIVE>(row.pen, row.guide[x], row.guide_before[z]);
            if z < x {
                from_left::<ADAPTIVE, ADD, COUNT>(row, far, z * row.count, at, values, sums);
            } else if x < z {
                from_right::<ADAPTIVE, ADD, COUNT>(row, far, z * row.count, at, values, sums);
            } else {
                from_itself::<ADAPTIVE, ADD, COUNT>(row, far, at, values, spare, sums);
            }
        }
    }
}

/// The whole row. In a level direction it is written from nothing, and what `values` held does not
/// matter. In any other the values are those of the row that the direction comes from. `COUNT` is
/// the row's count where that is known where this is compiled, and else 0.
#[inline(never)]
pub(crate) fn sweep<const ADAPTIVE: bool, const ADD: bool, const COUNT: usize>(
    row: &RowPass,
    values: &mut [u16],
    spare: &mut [u16],
    sums: &mut [u16],
)
    requires kind { (penalties_of row.now.pen).adaptive ≡ ADAPTIVE }
    requires counted { (COUNT ≡ 0) ⊎ (COUNT ≡ row.now.count) }
    requires lengths { AreRows (terms_of row.now) values.old spare.old }
    requires low { is_level row.now.dir ≡ false → All (λ v. v ≤ MAX_PATH_VALUE) values.old }
    requires sums { IsTrue ADD → CanAddRow (terms_of row.now) sums.old }
    ensures bound { All (λ v. v ≤ MAX_PATH_VALUE) values.new }
    ensures each { RowFollows row.now.dir row.now.count (penalties_of row.now.pen).p1
        (far_in (terms_of row.now))
        (row_from row.now.dir values.old values.new) row.now.costs.now values.new }
    ensures added { IsTrue ADD
        → EachIndex sums.new (λ k. slice_index sums.new k
        ≡ slice_index sums.old k + slice_index values.new k) }
{
    let row = &row.counted::<COUNT>();
    let width = row.guide.len();
    for i in 0..width {
        let x = column(row.dir, width, i);
        step_at::<ADAPTIVE, ADD, COUNT>(row, x, values, spare, sums);
    }
}
