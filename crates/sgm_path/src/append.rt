ghost use Rattle.std.specs.Prelude.{◌≡◌, ℕ, ◌+◌, ◌-◌, ◌*◌, ◌<◌, ◌≤◌, ◌⊎◌, length, slice_index};
ghost use Rattle.std.specs.Prelude.{◌++◌, All, OnOk};
ghost use Rattle.sgm_energy.specs.declared.dir.Dir.TheVariants.{Right, Left};
ghost use Rattle.sgm_energy.specs.Pens.{penalties_of};
ghost use Rattle.sgm_energy.specs.Rays.{Problem};
ghost use Rattle.sgm_energy.specs.Energies.{path_value};
ghost use Rattle.sgm_energy.specs.Rows.{HoldsRow};
ghost use Rattle.sgm_path.specs.Paths.{AppendsSums, AppendsValues, AreCosts, far_between, far_in};
ghost use Rattle.sgm_path.specs.Paths.{Follows, HasFar, Suits, terms_of};

use crate::pixel::{begin, far_at, follow};
use crate::row_pass::RowPass;
use crate::sweep::sweep;
use sgm_base::{MAX_COUNT, MAX_PATH_VALUE};
use sgm_energy::{Dir, Pen};
use std::alloc::AllocError;

/// The values of the pixel `x` of a row, where the direction comes from the left, from those of the
/// pixel before.
#[inline(always)]
fn next_values<const ADAPTIVE: bool>(row: &RowPass, x: usize, prev: &[u16], values: &mut [u16])
    requires kind { (penalties_of row.now.pen).adaptive ≡ ADAPTIVE }
    requires inside { (0 < x) × (x < length row.now.guide.now) }
    requires prev { (length prev.now ≡ row.now.count) × All (λ v. v ≤ MAX_PATH_VALUE) prev.now }
    requires values { length values.old ≡ row.now.count }
    ensures each { let t = terms_of row.now in (d : ℕ) → d < t.count
        → Follows (slice_index prev.now) t.count t.penalties.p1 (far_in t (x - 1) x)
        (slice_index t.costs (x * t.count + d)) d (slice_index values.new d) }
    ensures bound { (d : ℕ) → d < row.now.count → slice_index values.new d ≤ MAX_PATH_VALUE }
{
    let far = far_at::<ADAPTIVE>(row.pen, row.guide[x], row.guide_before[x - 1]);
    follow::<false, false>(row, far, prev, x * row.count, values, &mut []);
}

/// Appends the values of the pixel `x`, made in `values` from those of the pixel before. `COUNT` is
/// the row's, so that as few places as can be call this and the compiler puts it there.
#[inline(always)]
fn append_next<const ADAPTIVE: bool, const COUNT: usize>(
    row: &RowPass,
    x: usize,
    prev: &[u16],
    values: &mut [u16],
    into: &mut Vec<u16>,
) -> Result<(), AllocError>
    requires kind { (penalties_of row.now.pen).adaptive ≡ ADAPTIVE }
    requires inside { (0 < x) × (x < length row.now.guide.now) }
    requires prev { (length prev.now ≡ row.now.count) × All (λ v. v ≤ MAX_PATH_VALUE) prev.now }
    requires values { length values.old ≡ row.now.count }
    ensures each { let t = terms_of row.now in (d : ℕ) → d < t.count
        → Follows (slice_index prev.now) t.count t.penalties.p1 (far_in t (x - 1) x)
        (slice_index t.costs (x * t.count + d)) d (slice_index values.new d) }
    ensures bound { All (λ v. v ≤ MAX_PATH_VALUE) values.new }
    ensures added { OnOk result (into.new.items ≡ into.old.items ++ values.new) }
{
    next_values::<ADAPTIVE>(row, x, prev, values);
    into.extend_from_slice(values)
}

/// Appends the values of a row, where the direction comes from the left. Those of a pixel are made
/// in a small room, which stays in the first cache. Two rooms take turns, so that the values of the
/// pixel before are read from the other one and not from new memory, which takes time to be
/// written.
#[inline(always)]
fn append_values<const ADAPTIVE: bool, const COUNT: usize>(
    row: &RowPass,
    into: &mut Vec<u16>,
) -> Result<(), AllocError>
    requires kind { (penalties_of row.now.pen).adaptive ≡ ADAPTIVE }
    requires right { row.now.dir ≡ Right }
    ensures { OnOk result (AppendsValues (terms_of row.now) into.old.items into.new.items) }
{
    if row.guide.is_empty() {
        return Ok(());
    }
    let count = row.count;
    let mut room = [0u16; MAX_COUNT as usize];
    let mut other = [0u16; MAX_COUNT as usize];
    let (even, _) = room.split_at_mut(count);
    let (odd, _) = other.split_at_mut(count);
    begin(&row.costs[..count], count, 0, even);
    into.extend_from_slice(even)?;
    for x in 1..row.guide.len() {
        if x % 2 == 1 {
            append_next::<ADAPTIVE, COUNT>(row, x, even, odd, into)?;
        } else {
            append_next::<ADAPTIVE, COUNT>(row, x, odd, even, into)?;
        }
    }
    Ok(())
}

/// The values of both directions, the first of which are appended and the others added to them.
/// `COUNT` is the count where that is known where this is compiled, and else 0.
#[inline(always)]
fn append_both<const ADAPTIVE: bool, const COUNT: usize>(
    pen: Pen,
    costs: &[u8],
    guide: &[Option<u8>],
    count: usize,
    spare: &mut [u16],
    into: &mut Vec<u16>,
) -> Result<(), AllocError>
    requires kind { (penalties_of pen).adaptive ≡ ADAPTIVE }
    requires counted { (COUNT ≡ 0) ⊎ (COUNT ≡ count) }
    requires costs { AreCosts count guide.now costs.now }
    requires spare_length { length spare.old ≡ length costs.now }
    ensures { OnOk result
        (AppendsSums (penalties_of pen).p1 count
        (far_between (penalties_of pen) guide.now guide.now) costs.now into.old.items
        into.new.items) }
{
    let at = into.len();
    let right = RowPass::make(Dir::Right, pen, costs, guide, guide, count);
    append_values::<ADAPTIVE, COUNT>(&right.counted::<COUNT>(), into)?;
    let (_, sums) = into.split_at_mut(at);
    let left = RowPass::make(Dir::Left, pen, costs, guide, guide, count);
    sweep::<ADAPTIVE, true, COUNT>(&left, spare, &mut [], sums);
    Ok(())
}

/// Appends the sums of the path values of both level directions of one row, which [`level_sums`]
/// writes. The values of the first direction are appended pixel by pixel, so that new memory is
/// written once. What `spare`, which is as long as the row, holds does not matter. After an error
/// `into` may have some of them.
///
/// [`level_sums`]: crate::level_sums
pub fn append_level_sums(
    pen: Pen,
    costs: &[u8],
    guide: &[Option<u8>],
    count: usize,
    spare: &mut [u16],
    into: &mut Vec<u16>,
) -> Result<(), AllocError>
    requires costs { AreCosts count guide.now costs.now }
    requires spare_length { length spare.old ≡ length costs.now }
    ensures { OnOk result
        (AppendsSums (penalties_of pen).p1 count
        (far_between (penalties_of pen) guide.now guide.now) costs.now into.old.items
        into.new.items) }
{
    if pen.is_adaptive() {
        return append_both::<true, 0>(pen, costs, guide, count, spare, into);
    }
    // Compiled apart as in `level_sums`.
    match count {
        64 => append_both::<false, 64>(pen, costs, guide, count, spare, into),
        128 => append_both::<false, 128>(pen, costs, guide, count, spare, into),
        _ => append_both::<false, 0>(pen, costs, guide, count, spare, into),
    }
}
