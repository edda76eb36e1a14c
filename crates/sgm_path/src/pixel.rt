// The values of one pixel of a row. Its costs, its values and its sums begin at the same place of
// their rows. Where `ADD` says so, the values are added to the sums.
ghost use Rattle.std.specs.Prelude.{◌≡◌, ℕ, ◌+◌, ◌^◌, ◌<◌, ◌≤◌, length, slice_index, All, IsTrue};
ghost use Rattle.sgm_energy.specs.Pens.{penalties_of, far_of};
ghost use Rattle.sgm_path.specs.Paths.{AddsPixel, CanAdd, Follows, FollowsAt, IsFarIn, IsLowAt};
ghost use Rattle.sgm_path.specs.Paths.{OthersStay, terms_of};

use crate::row_pass::RowPass;
use sgm_base::{MAX_COST, MAX_PATH_VALUE, MAX_PENALTY};
use sgm_energy::Pen;
use sgm_lanes::{add, add_step, least, step};

/// The penalty of a change by more than one between two pixels with these grey values. `ADAPTIVE`
/// is whether the pen is: with a fixed one nothing is left of it but the pen's penalty.
#[inline(always)]
pub(crate) fn far_at<const ADAPTIVE: bool>(pen: Pen, here: Option<u8>, before: Option<u8>) -> u16
    requires kind { (penalties_of pen).adaptive ≡ ADAPTIVE }
    ensures value { result ≡ far_of (penalties_of pen) here before }
    ensures range { ((penalties_of pen).p1 ≤ result) × (result ≤ MAX_PENALTY) }
{
    if ADAPTIVE {
        pen.far(here, before)
    } else {
        pen.p2()
    }
}

/// Adds the values of a pixel to its sums.
#[inline(always)]
fn add_at(values: &[u16], count: usize, at: usize, sums: &mut [u16])
    requires inside { at + count ≤ length sums.old }
    requires same_length { length values.now ≡ length sums.old }
    requires room { (d : ℕ) → d < count
        → slice_index sums.old (at + d) + slice_index values.now (at + d) < 2 ^ 16 }
    ensures others { OthersStay at count sums.old sums.new }
    ensures each { (d : ℕ) → d < count → slice_index sums.new (at + d)
        ≡ slice_index sums.old (at + d) + slice_index values.now (at + d) }
{
    let (_, rest) = sums.split_at_mut(at);
    let (here, _) = rest.split_at_mut(count);
    add(here, &values[at..at + count]);
}

/// Where a ray begins, the values are the costs: so many of them, from `at` on.
#[inline(always)]
pub(crate) fn begin(costs: &[u8], count: usize, at: usize, values: &mut [u16])
    requires inside { at + count ≤ length values.old }
    requires same_length { length costs.now ≡ length values.old }
    requires low { All (λ c. c ≤ MAX_COST) costs.now }
    ensures others { OthersStay at count values.old values.new }
    ensures each { (d : ℕ) → d < count
        → slice_index values.new (at + d) ≡ slice_index costs.now (at + d) }
    ensures bound { (d : ℕ) → d < count → slice_index values.new (at + d) ≤ MAX_PATH_VALUE }
{
    for d in 0..count {
        values[at + d] = u16::from(costs[at + d]);
    }
}

/// The values of a pixel that begins a ray.
#[inline(always)]
pub(crate) fn begin_at<const ADD: bool>(
    row: &RowPass,
    at: usize,
    values: &mut [u16],
    sums: &mut [u16],
)
    requires inside { at + row.now.count ≤ length row.now.costs.now }
    requires same_length { length values.old ≡ length row.now.costs.now }
    requires sums { IsTrue ADD → CanAdd (terms_of row.now) at sums.old }
    ensures others { OthersStay at row.now.count values.old values.new }
    ensures each { (d : ℕ) → d < row.now.count
        → slice_index values.new (at + d) ≡ slice_index row.now.costs.now (at + d) }
    ensures bound { IsLowAt at row.now.count values.new }
    ensures added { IsTrue ADD → AddsPixel at row.now.count
        (λ d. slice_index values.new (at + d)) sums.old sums.new }
{
    begin(row.costs, row.count, at, values);
    if ADD {
        add_at(values, row.count, at, sums);
    }
}

/// The values of the pixel that begins at `at`, from those of the pixel before. `BACK` is whether
/// the pixels to whose sums values are added come from right to left.
#[inline(always)]
pub(crate) fn follow<const ADD: bool, const BACK: bool>(
    row: &RowPass,
    far: u16,
    prev: &[u16],
    at: usize,
    into: &mut [u16],
    sums: &mut [u16],
)
    requires prev_length { length prev.now ≡ row.now.count }
    requires into_length { length into.old ≡ row.now.count }
    requires inside { at + row.now.count ≤ length row.now.costs.now }
    requires before { IsFarIn (terms_of row.now) far × All (λ v. v ≤ MAX_PATH_VALUE) prev.now }
    requires sums { IsTrue ADD → CanAdd (terms_of row.now) at sums.old }
    ensures each { (d : ℕ) → d < row.now.count
        → Follows (slice_index prev.now) row.now.count (penalties_of row.now.pen).p1 far
        (slice_index row.now.costs.now (at + d)) d (slice_index into.new d) }
    ensures bound { (d : ℕ) → d < row.now.count → slice_index into.new d ≤ MAX_PATH_VALUE }
    ensures added { IsTrue ADD
        → AddsPixel at row.now.count (slice_index into.new) sums.old sums.new }
{
    let costs = &row.costs[at..at + row.count];
    let p1 = row.pen.p1();
    if ADD {
        let (_, rest) = sums.split_at_mut(at);
        let (here, _) = rest.split_at_mut(row.count);
        add_step::<BACK>(prev, least(prev), costs, p1, far, into, here);
    } else {
        step(prev, least(prev), costs, p1, far, into);
    }
}

/// The values of the pixel that begins at `at`, from those of a pixel of the same row on its left.
/// Values are added to sums in rows that are gone through from right to left. `ADAPTIVE` and
/// `COUNT` are the row's, so that one place calls this and the compiler puts it there.
#[inline(always)]
pub(crate) fn from_left<const ADAPTIVE: bool, const ADD: bool, const COUNT: usize>(
    row: &RowPass,
    far: u16,
    from: usize,
    at: usize,
    values: &mut [u16],
    sums: &mut [u16],
)
    requires apart { from + row.now.count ≤ at }
    requires inside { at + row.now.count ≤ length row.now.costs.now }
    requires same_length { length values.old ≡ length row.now.costs.now }
    requires before { IsFarIn (terms_of row.now) far × IsLowAt from row.now.count values.old }
    requires sums { IsTrue ADD → CanAdd (terms_of row.now) at sums.old }
    ensures follows { FollowsAt (terms_of row.now) far from at values.old values.new }
    ensures bound { IsLowAt at row.now.count values.new }
    ensures added { IsTrue ADD → AddsPixel at row.now.count
        (λ d. slice_index values.new (at + d)) sums.old sums.new }
{
    let (front, back) = values.split_at_mut(at);
    let (here, _) = back.split_at_mut(row.count);
    follow::<ADD, true>(row, far, &front[from..from + row.count], at, here, sums);
}

/// The same from those of a pixel on its right.
#[inline(always)]
pub(crate) fn from_right<const ADAPTIVE: bool, const ADD: bool, const COUNT: usize>(
    row: &RowPass,
    far: u16,
    from: usize,
    at: usize,
    values: &mut [u16],
    sums: &mut [u16],
)
    requires apart { at + row.now.count ≤ from }
    requires inside { from + row.now.count ≤ length row.now.costs.now }
    requires same_length { length values.old ≡ length row.now.costs.now }
    requires before { IsFarIn (terms_of row.now) far × IsLowAt from row.now.count values.old }
    requires sums { IsTrue ADD → CanAdd (terms_of row.now) at sums.old }
    ensures follows { FollowsAt (terms_of row.now) far from at values.old values.new }
    ensures bound { IsLowAt at row.now.count values.new }
    ensures added { IsTrue ADD → AddsPixel at row.now.count
        (λ d. slice_index values.new (at + d)) sums.old sums.new }
{
    let end = at + row.count;
    let (front, back) = values.split_at_mut(end);
    let (_, here) = front.split_at_mut(at);
    let gap = from - end;
    follow::<ADD, false>(row, far, &back[gap..gap + row.count], at, here, sums);
}

/// The same from those that the pixel itself still has from the row before. What `spare` holds does
/// not matter.
#[inline(always)]
pub(crate) fn from_itself<const ADAPTIVE: bool, const ADD: bool, const COUNT: usize>(
    row: &RowPass,
    far: u16,
    at: usize,
    values: &mut [u16],
    spare: &mut [u16],
    sums: &mut [u16],
)
    requires inside { at + row.now.count ≤ length row.now.costs.now }
    requires spare { row.now.count ≤ length spare.old }
    requires same_length { length values.old ≡ length row.now.costs.now }
    requires before { IsFarIn (terms_of row.now) far × IsLowAt at row.now.count values.old }
    requires sums { IsTrue ADD → CanAdd (terms_of row.now) at sums.old }
    ensures follows { FollowsAt (terms_of row.now) far at at values.old values.new }
    ensures bound { IsLowAt at row.now.count values.new }
    ensures added { IsTrue ADD → AddsPixel at row.now.count
        (λ d. slice_index values.new (at + d)) sums.old sums.new }
{
    let (_, back) = values.split_at_mut(at);
    let (here, _) = back.split_at_mut(row.count);
    let (made, _) = spare.split_at_mut(row.count);
    // Made beside and copied back: that took less time than the step made in place from a copy.
    follow::<ADD, false>(row, far, here, at, made, sums);
    here.copy_from_slice(made);
}
