// Two rows of path values at once, in a direction that comes from another row: the second follows
// the first from column to column, so that the values between the two stay in a small room.
ghost use Rattle.std.specs.Prelude.{◌≡◌, ℕ, ◌+◌, ◌*◌, ◌<◌, ◌≤◌, ◌⊎◌, length, slice_index, All};
ghost use Rattle.std.specs.Prelude.{IsTrue, Some, false};
ghost use Rattle.sgm_energy.specs.Dirs.{is_level};
ghost use Rattle.sgm_energy.specs.Pens.{penalties_of};
ghost use Rattle.sgm_energy.specs.Rays.{column_before};
ghost use Rattle.sgm_path.specs.Paths.{AddsPixel, AreAlike, CanAdd, CanAddRow, EntryFollows};
ghost use Rattle.sgm_path.specs.Paths.{EntryFrom, FollowsTwo, IsLowAt, lag_of, OthersStay};
ghost use Rattle.sgm_path.specs.Paths.{PassesTwo, terms_of};

use crate::pixel::{begin, begin_at, far_at, follow};
use crate::row_pass::RowPass;
use crate::sweep::column;
use sgm_base::{MAX_COUNT, MAX_PATH_VALUE};
use sgm_energy::Dir;
use sgm_lanes::add;

/// By how many columns the second row stays behind the first.
#[inline(always)]
fn lag(dir: Dir) -> usize
    ensures value { result ≡ lag_of dir }
    ensures most { result ≤ 1 }
{
    match dir {
        Dir::Down | Dir::Up => 0,
        _ => 1,
    }
}

/// The values of a pixel that begins a ray, which are also added to its sums.
#[inline(always)]
fn begin_in(row: &RowPass, at: usize, room: &mut [u16], sums: &mut [u16])
    requires inside { at + row.now.count ≤ length row.now.costs.now }
    requires room { length room.old ≡ row.now.count }
    requires sums { CanAdd (terms_of row.now) at sums.old }
    ensures each { (d : ℕ) → d < row.now.count
        → slice_index room.new d ≡ slice_index row.now.costs.now (at + d) }
    ensures bound { IsLowAt 0 row.now.count room.new }
    ensures added { AddsPixel at row.now.count (slice_index room.new) sums.old sums.new }
{
    let count = row.count;
    begin(&row.costs[at..at + count], count, 0, room);
    let (_, rest) = sums.split_at_mut(at);
    let (here, _) = rest.split_at_mut(count);
    add(here, room);
}

/// The values of the column `x` of the first row, from those that the row before has where the
/// direction comes from. `BACK` is whether the columns come from right to left. `COUNT` is the
/// rows', so that one place calls this and the compiler puts it there.
#[inline(always)]
fn step_into<const ADAPTIVE: bool, const BACK: bool, const COUNT: usize>(
    row: &RowPass,
    x: usize,
    before: &[u16],
    room: &mut [u16],
    sums: &mut [u16],
)
    requires kind { (penalties_of row.now.pen).adaptive ≡ ADAPTIVE }
    requires inside { x < length row.now.guide.now }
    requires lengths { (length before.now ≡ length row.now.costs.now)
        × (length room.old ≡ row.now.count) }
    requires low { (z : ℕ) → column_before row.now.dir (length row.now.guide.now) x ≡ Some z
        → IsLowAt (z * row.now.count) row.now.count before.now }
    requires sums { CanAdd (terms_of row.now) (x * row.now.count) sums.old }
    ensures each { (d : ℕ) → d < row.now.count
        → EntryFollows (terms_of row.now) before.now x d (slice_index room.new d) }
    ensures bound { IsLowAt 0 row.now.count room.new }
    ensures added { AddsPixel (x * row.now.count) row.now.count (slice_index room.new)
        sums.old sums.new }
{
    let at = x * row.count;
    match row.dir.column_before(row.guide.len(), x) {
        None => begin_in(row, at, room, sums),
        Some(z) => {
            let far = far_at::<ADAPTIVE>(row.pen, row.guide[x], row.guide_before[z]);
            let from = z * row.count;
            follow::<true, BACK>(row, far, &before[from..from + row.count], at, room, sums);
        }
    }
}

/// The values of the column `x` of the second row, from those of the column of the first row that
/// the direction comes from.
#[inline(always)]
fn step_from<const ADAPTIVE: bool, const BACK: bool, const COUNT: usize>(
    row: &RowPass,
    x: usize,
    prev: &[u16],
    values: &mut [u16],
    sums: &mut [u16],
)
    requires kind { (penalties_of row.now.pen).adaptive ≡ ADAPTIVE }
    requires inside { x < length row.now.guide.now }
    requires same_length { length values.old ≡ length row.now.costs.now }
    requires prev { (length prev.now ≡ row.now.count) × All (λ v. v ≤ MAX_PATH_VALUE) prev.now }
    requires sums { CanAdd (terms_of row.now) (x * row.now.count) sums.old }
    ensures others { OthersStay (x * row.now.count) row.now.count values.old values.new }
    ensures each { (d : ℕ) → d < row.now.count → EntryFrom (terms_of row.now) prev.now x d
        (slice_index values.new (x * row.now.count + d)) }
    ensures bound { IsLowAt (x * row.now.count) row.now.count values.new }
    ensures added { AddsPixel (x * row.now.count) row.now.count
        (λ d. slice_index values.new (x * row.now.count + d)) sums.old sums.new }
{
    let at = x * row.count;
    match row.dir.column_before(row.guide.len(), x) {
        None => begin_at::<true>(row, at, values, sums),
        Some(z) => {
            let far = far_at::<ADAPTIVE>(row.pen, row.guide[x], row.guide_before[z]);
            let (_, back) = values.split_at_mut(at);
            let (here, _) = back.split_at_mut(row.count);
            follow::<true, BACK>(row, far, prev, at, here, sums);
        }
    }
}

/// Both rows. `values` has those of the row before and then those of the second row. `COUNT` is the
/// rows' count where that is known where this is compiled, and else 0.
#[inline(never)]
fn sweep_two<const ADAPTIVE: bool, const BACK: bool, const COUNT: usize>(
    first: &RowPass,
    second: &RowPass,
    values: &mut [u16],
    sums: &mut [u16],
    more: &mut [u16],
)
    requires kind { ((penalties_of first.now.pen).adaptive ≡ ADAPTIVE)
        × ((penalties_of second.now.pen).adaptive ≡ ADAPTIVE) }
    requires counted { (COUNT ≡ 0) ⊎ (COUNT ≡ first.now.count) }
    requires across { is_level first.now.dir ≡ false }
    requires alike { AreAlike (terms_of first.now) (terms_of second.now) }
    requires same_length { length values.old ≡ length first.now.costs.now }
    requires low { All (λ v. v ≤ MAX_PATH_VALUE) values.old }
    requires sums { CanAddRow (terms_of first.now) sums.old }
    requires more { CanAddRow (terms_of second.now) more.old }
    ensures bound { All (λ v. v ≤ MAX_PATH_VALUE) values.new }
    ensures follows { FollowsTwo (terms_of first.now) (terms_of second.now)
        values.old values.new sums.old sums.new more.old more.new }
{
    let first = &first.counted::<COUNT>();
    let second = &second.counted::<COUNT>();
    let width = first.guide.len();
    let lag = lag(first.dir);
    // The values of the first row's last column.
    let mut room = [0u16; MAX_COUNT as usize];
    let (between, _) = room.split_at_mut(first.count);
    for i in 0..width {
        let x = column(first.dir, width, i);
        step_into::<ADAPTIVE, BACK, COUNT>(first, x, values, between, sums);
        if lag <= i {
            let x = column(second.dir, width, i - lag);
            step_from::<ADAPTIVE, BACK, COUNT>(second, x, between, values, more);
        }
    }
    if 0 < lag && 0 < width {
        // Nothing comes before this column.
        let x = column(second.dir, width, width - 1);
        begin_at::<true>(second, x * second.count, values, more);
    }
}

/// Both rows, by their count.
#[inline(always)]
fn sweep_by_count<const BACK: bool>(
    first: &RowPass,
    second: &RowPass,
    values: &mut [u16],
    sums: &mut [u16],
    more: &mut [u16],
)
    requires across { is_level first.now.dir ≡ false }
    requires alike { AreAlike (terms_of first.now) (terms_of second.now) }
    requires same_kind { (penalties_of first.now.pen).adaptive
        ≡ (penalties_of second.now.pen).adaptive }
    requires same_length { length values.old ≡ length first.now.costs.now }
    requires low { All (λ v. v ≤ MAX_PATH_VALUE) values.old }
    requires sums { CanAddRow (terms_of first.now) sums.old }
    requires more { CanAddRow (terms_of second.now) more.old }
    ensures bound { All (λ v. v ≤ MAX_PATH_VALUE) values.new }
    ensures follows { FollowsTwo (terms_of first.now) (terms_of second.now)
        values.old values.new sums.old sums.new more.old more.new }
{
    if first.pen.is_adaptive() {
        return sweep_two::<true, BACK, 0>(first, second, values, sums, more);
    }
    // The counts that most pictures ask for are compiled apart.
    match first.count {
        64 => sweep_two::<false, BACK, 64>(first, second, values, sums, more),
        128 => sweep_two::<false, BACK, 128>(first, second, values, sums, more),
        _ => sweep_two::<false, BACK, 0>(first, second, values, sums, more),
    }
}

/// Goes on to the next two rows of a direction that isn't level, of which `second` comes after
/// `first`: `values` has the path values of the row that the direction comes from to the first, and
/// then those of the second. The first row's are added to `sums` and the second's to `more`. All
/// are rows of `count` entries a pixel, and as wide. Gives what two calls of [`pass_row`] give, and
/// goes through `values` once.
///
/// [`pass_row`]: crate::pass_row
pub fn pass_two(
    first: &RowPass,
    second: &RowPass,
    values: &mut [u16],
    sums: &mut [u16],
    more: &mut [u16],
)
    requires across { is_level (terms_of first.now).dir ≡ false }
    requires alike { AreAlike (terms_of first.now) (terms_of second.now) }
    requires same_kind { (terms_of first.now).penalties.adaptive
        ≡ (terms_of second.now).penalties.adaptive }
    requires same_length { length values.old ≡ length (terms_of first.now).costs }
    requires low { All (λ v. v ≤ MAX_PATH_VALUE) values.old }
    requires sums { CanAddRow (terms_of first.now) sums.old }
    requires more { CanAddRow (terms_of second.now) more.old }
    ensures bound { All (λ v. v ≤ MAX_PATH_VALUE) values.new }
    ensures passes { PassesTwo (terms_of first.now) (terms_of second.now)
        values.old values.new sums.old sums.new more.old more.new }
{
    match first.dir {
        Dir::DownRight | Dir::UpRight => {
            sweep_by_count::<true>(first, second, values, sums, more)
        }
        _ => sweep_by_count::<false>(first, second, values, sums, more),
    }
}
