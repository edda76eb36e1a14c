ghost use Rattle.std.specs.Prelude.{◌≡◌, ◌+◌, ◌*◌, ◌^◌, ◌<◌, ◌≤◌, length, slice_index, slice_get};
ghost use Rattle.std.specs.Prelude.{Some, None, EachIndex, IfSome};
ghost use Rattle.sgm_base.specs.Columns.{right_column};
ghost use Rattle.sgm_base.specs.Disparities.{IsCount};
ghost use Rattle.sgm_base.specs.Ranges.{Within};
ghost use Rattle.sgm_select.specs.Selection.{checked, in_sixteenths, offset, vertex};
ghost use Rattle.sgm_select.specs.Rows.{base_in, checked_in, sum_in};

use sgm_base::{MAX_COUNT, Span};

/// How far from the middle one of three sums the parabola through them has its least value, in
/// sixteenths of the step from one sum to the next:
/// floor((16 * (a - c) + (a + c)) / (2 * (a + c))), with a = before - at and c = after - at. Takes
/// no memory.
///
/// The source is the quadratic of Hirschmüller 2008; sixteenths and rounding are of this project.
pub fn sixteenths(before: u16, at: u16, after: u16) -> i32
    requires falls { at < before }
    requires rises { at ≤ after }
    ensures exact { result ≡ vertex before at after }
    ensures near { Within 8 result }
{
    let a = u32::from(before - at);
    let c = u32::from(after - at);
    // Eight more is never below 0, so that no sign has to be asked for.
    ((33 * a + c) / (2 * (a + c))) as i32 - 8
}

/// The offset of the index `base` of the column `x`.
fn offset_at(sums: &[u16], count: usize, x: usize, base: u16) -> i32
    requires count { IsCount count }
    requires inside { (x + 1) * count ≤ length sums.now }
    requires base { base ≡ base_in sums.now count x }
    ensures { result ≡ offset (sum_in sums.now count x) count base }
{
    let index = usize::from(base);
    if index == 0 || index + 1 == count {
        return 0;
    }
    let at = x * count + index;
    sixteenths(sums[at - 1], sums[at], sums[at + 1])
}

/// The index `base` of the column `x` and its offset, in sixteenths.
fn refined(sums: &[u16], count: usize, x: usize, base: u16) -> u16
    requires count { IsCount count }
    requires inside { (x + 1) * count ≤ length sums.now }
    requires base { base ≡ base_in sums.now count x }
    ensures { result ≡ in_sixteenths (sum_in sums.now count x) count base }
{
    (16 * i32::from(base) + offset_at(sums, count, x, base)) as u16
}

/// The column of the right row that the index `d` gives to the column `x`, where it lies in the
/// row.
fn seen_at(width: usize, span: Span, x: usize, d: u16) -> Option<usize>
    requires column { x < width }
    requires wide { width < 2 ^ 62 }
    ensures value { result ≡ right_column width span.first x d }
    ensures inside { IfSome result (λ q. q < width) }
{
    let q = x as i64 - i64::from(span.first) - i64::from(d);
    if 0 <= q && q < width as i64 {
        Some(q as usize)
    } else {
        None
    }
}

/// The index, where neither pixel is void and the index of the right one is at most 1 away.
fn kept(base: u16, left: Option<u16>, right: Option<u16>, matched: Option<u16>) -> Option<u16>
    ensures checked { result ≡ checked base left right matched }
    ensures same { IfSome result (λ b. b ≡ base) }
{
    match (left, right, matched) {
        (Some(_), Some(_), Some(index)) if base.abs_diff(index) <= 1 => Some(base),
        _ => None,
    }
}

/// A row of the left image and of the right one: the sums, which stand as for `base_row`, the
/// indices `base` and `matched` of both images, their values, and the disparities that are tried.
#[derive(Clone, Copy)]
struct Row<'a> {
    sums: &'a [u16],
    base: &'a [u16],
    matched: &'a [Option<u16>],
    left: &'a [Option<u16>],
    right: &'a [Option<u16>],
    span: Span,
    ghost sums_length: { length sums.now ≡ length base.now * span.count },
    ghost matched_length: { length matched.now ≡ length base.now },
    ghost left_length: { length left.now ≡ length base.now },
    ghost right_length: { length right.now ≡ length base.now },
    ghost base_least: { EachIndex base.now (λ x. slice_index base.now x
        ≡ base_in sums.now span.count x) },
}

/// The disparity of the column `x`.
#[tactic(auto, unfolding(crate::specs::Rows::checked_in))]
fn check_at(row: &Row, x: usize) -> Option<u16>
    requires column { x < length row.now.base.now }
    ensures { result
        ≡ checked_in row.now.sums.now row.now.span.count row.now.base.now row.now.matched.now
        row.now.left.now row.now.right.now row.now.span.first x }
{
    let index = row.base[x];
    let q = seen_at(row.base.len(), row.span, x, index)?;
    let kept = kept(index, row.left[x], row.right[q], row.matched[q])?;
    Some(refined(row.sums, row.span.count as usize, x, kept))
}

/// What [`check_row`] writes.
#[inline(always)]
fn check_each(row: &Row, into: &mut [Option<u16>])
    requires into_length { length into.old ≡ length row.now.base.now }
    ensures { EachIndex into.new (λ x. slice_get into.new x
        ≡ Some (checked_in row.now.sums.now row.now.span.count row.now.base.now row.now.matched.now
        row.now.left.now row.now.right.now row.now.span.first x)) }
{
    for x in 0..into.len() {
        into[x] = check_at(row, x);
    }
}

/// Writes the disparity of each pixel of the left row in sixteenths: 16 times its index `base` and
/// the offset that [`sixteenths`] gives for the sums before, at and after that index, which is 0 at
/// the first and the last one. It is None unless the column q = x - first - base lies in the row,
/// `left` at x and `right` at q aren't void, and the indices `base` at x and `matched` at q differ
/// by at most 1. The sums stand as for `base_row`, and `base` is what it gives for them. Takes no
/// memory.
pub fn check_row(
    sums: &[u16],
    base: &[u16],
    matched: &[Option<u16>],
    left: &[Option<u16>],
    right: &[Option<u16>],
    span: Span,
    into: &mut [Option<u16>],
)
    requires sums_length { length sums.now ≡ length into.old * span.count }
    requires base_length { length base.now ≡ length into.old }
    requires matched_length { length matched.now ≡ length into.old }
    requires left_length { length left.now ≡ length into.old }
    requires right_length { length right.now ≡ length into.old }
    requires base { EachIndex base.now (λ x. slice_index base.now x
        ≡ base_in sums.now span.count x) }
    ensures { EachIndex into.new (λ x. slice_get into.new x
        ≡ Some (checked_in sums.now span.count base.now matched.now left.now right.now span.first
        x)) }
{
    let row = Row {
        sums,
        base,
        matched,
        left,
        right,
        span,
    };
    check_each(&row, into);
}
