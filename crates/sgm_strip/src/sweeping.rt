// One direction through the rows of a strip.
ghost use Rattle.std.specs.Prelude.{◌≡◌, ℕ, ◌+◌, ◌*◌, ◌/◌, ◌%◌, ◌-◌, ◌^◌, ◌<◌, ◌≤◌, ◌||◌, ◌⊎◌};
ghost use Rattle.std.specs.Prelude.{false, Some, nat_lt, length, slice_index, EachIndex, All};
ghost use Rattle.sgm_base.specs.declared.limits.TheConstants.{MAX_COST, MAX_COUNT, MAX_PATH_VALUE};
ghost use Rattle.sgm_energy.specs.Dirs.{is_level};
ghost use Rattle.sgm_energy.specs.Pens.{penalties_of};
ghost use Rattle.sgm_energy.specs.Rays.{Pixel, Problem, row_before};
ghost use Rattle.sgm_energy.specs.Energies.{path_value};
ghost use Rattle.sgm_energy.specs.Rows.{HoldsRow};
ghost use Rattle.sgm_path.specs.Paths.{AreAlike, far_in, terms_of};
ghost use Rattle.sgm_strip.specs.Volumes.{HoldsRows};
ghost use Rattle.sgm_strip.specs.Passing.{AddsAt, AddsTwo, ComesBefore, IsPathRow, SuitsRow};
ghost use Rattle.sgm_strip.specs.Passing.{SuitsRows, visited};

use crate::Guide;
use sgm_energy::{Dir, Pen};
use sgm_path::{RowPass, begin_row, pass_row, pass_two};

/// Which row of a strip is the `i`-th to which a direction comes.
fn visited(dir: Dir, rows: usize, i: usize) -> usize
    requires inside { i < rows }
    ensures value { result ≡ visited dir rows i }
    ensures inside { result < rows }
{
    if dir.goes_down() { i } else { rows - (i + 1) }
}

/// Whether a row comes before the `i`-th of the strip.
fn is_begun(begun: bool, i: usize) -> bool
    ensures { result ≡ (begun || nat_lt 0 i) }
{
    begun || 0 < i
}

/// The row from which a direction comes to the row `y`, and where the image has none the row
/// itself.
fn row_from(dir: Dir, height: u32, y: u32) -> u32
    requires inside { y < height }
    ensures value { (before : ℕ) → row_before dir height y ≡ Some before → result ≡ before }
    ensures inside { result < height }
{
    dir.row_before(height, y).unwrap_or(y)
}

/// The costs of a strip that begins at the row `top`, with what the path values of its rows follow
/// from.
#[derive(Clone, Copy)]
pub(crate) struct StripCosts<'a> {
    pub(crate) pen: Pen,
    pub(crate) guide: &'a Guide,
    pub(crate) costs: &'a [u8],
    pub(crate) top: u32,
    pub(crate) count: usize,
    ghost count_range: { (1 ≤ count) × (count ≤ MAX_COUNT) },
    ghost some: { 0 < guide.now.width },
    ghost rows: { length costs.now % (guide.now.width * count) ≡ 0 },
    ghost inside: { top + length costs.now / (guide.now.width * count) ≤ guide.now.height },
    ghost low: { All (λ c. c ≤ MAX_COST) costs.now },
}

/// Goes on to the next row, whose sums begin at `at`: where a row was visited before (`begun`),
/// `last` has its path values, and then those of this one, which are added to its sums. What
/// `spare` holds does not matter.
fn advance(
    row: &RowPass,
    begun: bool,
    at: usize,
    last: &mut [u16],
    spare: &mut [u16],
    sums: &mut [u16],
)
    requires across { is_level (terms_of row.now).dir ≡ false }
    requires last { IsPathRow (length (terms_of row.now).costs) last.old }
    requires spare_length { (terms_of row.now).count ≤ length spare.old }
    requires inside { at + length last.old ≤ length sums.old }
    requires room { (k : ℕ) → k < length last.old
        → slice_index sums.old (at + k) + MAX_PATH_VALUE < 2 ^ 16 }
    ensures bound { All (λ v. v ≤ MAX_PATH_VALUE) last.new }
    ensures added { AddsAt at last.new sums.old sums.new }
    ensures paths { let t = terms_of row.now in (g : Problem) (y : ℕ)
        → SuitsRow g t.dir y t.penalties.p1 t.count (far_in t) t.costs
        → ComesBefore g t.dir y begun last.old → HoldsRow g y (path_value g t.dir) last.new }
{
    let (_, rest) = sums.split_at_mut(at);
    let (here, _) = rest.split_at_mut(last.len());
    if begun {
        pass_row(row, last, spare, here);
    } else {
        begin_row(row, last, here);
    }
}

/// Goes on to the next two rows, one beside the other, whose sums begin at `at` and `at_second`: a
/// row was visited before, whose path values `last` has, and then those of the second.
fn advance_two(
    first: &RowPass,
    second: &RowPass,
    at: usize,
    at_second: usize,
    last: &mut [u16],
    sums: &mut [u16],
)
    requires across { is_level (terms_of first.now).dir ≡ false }
    requires alike { AreAlike (terms_of first.now) (terms_of second.now) }
    requires same_kind { (terms_of first.now).penalties.adaptive
        ≡ (terms_of second.now).penalties.adaptive }
    requires last { IsPathRow (length (terms_of first.now).costs) last.old }
    requires second { length (terms_of second.now).costs ≡ length last.old }
    requires beside { (at + length last.old ≡ at_second) ⊎ (at_second + length last.old ≡ at) }
    requires inside { (at + length last.old ≤ length sums.old)
        × (at_second + length last.old ≤ length sums.old) }
    requires room { (k : ℕ) → k < length last.old
        → (slice_index sums.old (at + k) + MAX_PATH_VALUE < 2 ^ 16)
        × (slice_index sums.old (at_second + k) + MAX_PATH_VALUE < 2 ^ 16) }
    ensures bound { All (λ v. v ≤ MAX_PATH_VALUE) last.new }
    ensures added { AddsTwo (terms_of first.now) (terms_of second.now) at at_second
        last.old last.new sums.old sums.new }
{
    let row = last.len();
    let (_, rest) = sums.split_at_mut(at.min(at_second));
    let (upper, rest) = rest.split_at_mut(row);
    let (lower, _) = rest.split_at_mut(row);
    if at < at_second {
        pass_two(first, second, last, upper, lower);
    } else {
        pass_two(first, second, last, lower, upper);
    }
}

/// The pass over the row at this place of a strip, whose rows have so many entries.
fn row_at<'a>(dir: Dir, strip: &StripCosts<'a>, row: usize, place: usize) -> RowPass<'a>
    requires row { row ≡ strip.now.guide.now.width * strip.now.count }
    requires place { place < length strip.now.costs.now / row }
    ensures dir { (terms_of result).dir ≡ dir }
    ensures penalties { (terms_of result).penalties ≡ penalties_of strip.now.pen }
    ensures count { (terms_of result).count ≡ strip.now.count }
    ensures width { length (terms_of result).guide ≡ strip.now.guide.now.width }
    ensures whole { length (terms_of result).costs ≡ row }
    ensures suits { let s = strip.now in let t = terms_of result in (g : Problem) (rows : ℕ)
        → SuitsRows g s.top rows (penalties_of s.pen) s.guide.now s.count row s.costs.now
        → place < rows
        → SuitsRow g t.dir (s.top + place) t.penalties.p1 t.count (far_in t) t.costs }
{
    let height = strip.guide.size().height;
    let y = strip.top + place as u32;
    let from = row_from(dir, height, y);
    let at = place * row;
    RowPass::make(
        dir,
        strip.pen,
        &strip.costs[at..at + row],
        strip.guide.row(y),
        strip.guide.row(from),
        strip.count,
    )
}

/// Adds the path values of one direction to the sums of a strip. Where the direction has `begun`,
/// `last` hands in the row from which it comes to the strip; afterwards it has the last row of the
/// strip. `spare` has room for a pixel, and what it holds does not matter.
pub(crate) fn pass_rows(
    dir: Dir,
    strip: &StripCosts,
    begun: bool,
    last: &mut [u16],
    spare: &mut [u16],
    sums: &mut [u16],
)
    requires across { is_level dir ≡ false }
    requires last { IsPathRow (strip.now.guide.now.width * strip.now.count) last.old }
    requires spare_length { strip.now.count ≤ length spare.old }
    requires sums_length { length sums.old ≡ length strip.now.costs.now }
    requires room { EachIndex sums.old (λ k. slice_index sums.old k + MAX_PATH_VALUE < 2 ^ 16) }
    ensures bound { All (λ v. v ≤ MAX_PATH_VALUE) last.new }
    ensures last { let s = strip.now in (g : Problem) (rows : ℕ)
        → SuitsRows g s.top rows (penalties_of s.pen) s.guide.now s.count
        (length last.old) s.costs.now
        → 0 < rows → ComesBefore g dir (s.top + visited dir rows 0) begun last.old
        → HoldsRow g (s.top + visited dir rows (rows - 1)) (path_value g dir) last.new }
    ensures sums { let s = strip.now in (g : Problem) (rows : ℕ) (f : Pixel → ℕ → ℕ)
        → SuitsRows g s.top rows (penalties_of s.pen) s.guide.now s.count
        (length last.old) s.costs.now
        → 0 < rows → ComesBefore g dir (s.top + visited dir rows 0) begun last.old
        → HoldsRows g s.top rows f sums.old
        → HoldsRows g s.top rows (λ p d. f p d + path_value g dir p d) sums.new }
{
    let row = last.len();
    let rows = strip.costs.len() / row;
    let mut i = 0;
    // Two rows at once take less time; the first of a ray stands alone, and one that is left over.
    while i < rows {
        let place = visited(dir, rows, i);
        let here = row_at(dir, strip, row, place);
        if is_begun(begun, i) && i + 1 < rows {
            let next = visited(dir, rows, i + 1);
            let there = row_at(dir, strip, row, next);
            advance_two(&here, &there, place * row, next * row, last, sums);
            i += 2;
        } else {
            advance(&here, is_begun(begun, i), place * row, last, spare, sums);
            i += 1;
        }
    }
}
