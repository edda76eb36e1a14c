//! The index at which a pixel's sum is least, in the left row and in the right one.

ghost use Rattle.std.specs.Prelude.{◌≡◌, ℕ, ◌+◌, ◌-◌, ◌*◌, ◌%◌, ◌^◌, ◌<◌, ◌≤◌, ◌&&◌, ◌==◌, ℤ, pos};
ghost use Rattle.std.specs.Prelude.{◌+ℤ◌, length, slice_index, slice_get, nat_le, nat_lt, min};
ghost use Rattle.std.specs.Prelude.{Some, None, EachIndex, All, if◌then◌else◌};
ghost use Rattle.sgm_base.specs.Columns.{column_within};
ghost use Rattle.sgm_select.specs.Keys.{key_of, HoldsKeys};
ghost use Rattle.sgm_select.specs.Rows.{base_in, matched_in};

use sgm_base::{MAX_COUNT, MAX_SIDE, Overlap, Span};
use sgm_lanes::{first_of, least};

/// The columns of the right row whose keys are held at a time.
const COLUMNS: usize = MAX_SIDE as usize;

/// Above every key.
const NO_KEY: u32 = u32::MAX;

/// A number for a sum and its index, by which pairs are ordered by their sums, and by the indices
/// where these are equal. So the least key is that of the least index at which the sum is least.
#[inline]
fn key(sum: u16, index: u32) -> u32
    requires { index < MAX_COUNT }
    ensures { result ≡ key_of sum index }
{
    MAX_COUNT * u32::from(sum) + index
}

/// The least index at which the sums of a pixel are least.
#[inline(always)]
fn base_at(sums: &[u16]) -> u16
    requires some { 0 < length sums.now }
    requires few { length sums.now ≤ MAX_COUNT }
    ensures inside { result < length sums.now }
    ensures low { (d : ℕ) → d < length sums.now
        → slice_index sums.now result ≤ slice_index sums.now d }
    ensures first { (d : ℕ) → d < result → slice_index sums.now result < slice_index sums.now d }
{
    first_of(sums, least(sums)) as u16
}

/// What [`base_row`] writes.
#[inline(always)]
fn base_each(sums: &[u16], count: usize, into: &mut [u16])
    requires count_range { (1 ≤ count) × (count ≤ MAX_COUNT) }
    requires lengths { length sums.now ≡ length into.old * count }
    ensures each { EachIndex into.new (λ x. slice_index into.new x ≡ base_in sums.now count x) }
    ensures below { All (λ b. b < count) into.new }
{
    for x in 0..into.len() {
        let at = x * count;
        into[x] = base_at(&sums[at..at + count]);
    }
}

/// Writes, for each pixel of the left row, the least index at which its sum is least. The sum of
/// the column x and the index d stands at `x * count + d`. Takes no memory.
pub fn base_row(sums: &[u16], count: usize, into: &mut [u16])
    requires count_range { (1 ≤ count) × (count ≤ MAX_COUNT) }
    requires lengths { length sums.now ≡ length into.old * count }
    ensures each { EachIndex into.new (λ x. slice_index into.new x ≡ base_in sums.now count x) }
    ensures below { All (λ b. b < count) into.new }
{
    // The numbers of indices that most pictures ask for are compiled apart, so that the loop over
    // them is unrolled there.
    match count {
        64 => base_each(sums, 64, into),
        128 => base_each(sums, 128, into),
        _ => base_each(sums, count, into),
    }
}

/// The indices d at which `shift + d` is one of so many places.
fn places(len: usize, count: usize, shift: i64) -> Overlap
    ensures indices { result.skipped + result.len ≤ count }
    ensures inside { result.start + result.len ≤ len }
    ensures each { (d : ℕ) → d < count → column_within len (shift +ℤ pos d)
        ≡ (if nat_le result.skipped d
        && nat_lt d (result.skipped + result.len) then Some (result.start + (d - result.skipped))
        else None) }
{
    let (before, start) = if shift < 0 {
        (shift.unsigned_abs() as usize, 0)
    } else {
        (0, shift as usize)
    };
    let skipped = before.min(count);
    let start = start.min(len);
    let len = (len - start).min(count - skipped);
    Overlap {
        skipped,
        start,
        len,
    }
}

/// Replaces each key by that of the sum at its place, where that is less. The first sum has the
/// index `skipped`.
#[inline(always)]
fn lower(keys: &mut [u32], sums: &[u16], skipped: usize)
    requires same_length { length sums.now ≡ length keys.old }
    requires indices { skipped + length sums.now ≤ MAX_COUNT }
    ensures { EachIndex keys.new (λ k.
        slice_index keys.new k
        ≡ min (slice_index keys.old k) (key_of (slice_index sums.now k) (skipped + k))) }
{
    // As narrow as the keys, so that as many lanes hold it.
    let first = skipped as u32;
    for k in 0..keys.len() {
        keys[k] = keys[k].min(key(sums[k], first + k as u32));
    }
}

/// The same for so many keys from `start` on, by the sums from `skipped` on.
#[inline(always)]
fn lower_part(keys: &mut [u32], sums: &[u16], skipped: usize, start: usize, len: usize)
    requires indices { skipped + len ≤ length sums.now }
    requires few { length sums.now ≤ MAX_COUNT }
    requires places { start + len ≤ length keys.old }
    ensures here { (k : ℕ) → k < len → slice_index keys.new (start + k)
        ≡ min (slice_index keys.old (start + k))
        (key_of (slice_index sums.now (skipped + k)) (skipped + k)) }
    ensures before { (m : ℕ) → m < start → slice_index keys.new m ≡ slice_index keys.old m }
    ensures after { (m : ℕ) → start + len ≤ m → slice_index keys.new m ≡ slice_index keys.old m }
{
    let (_, rest) = keys.split_at_mut(start);
    let (some, _) = rest.split_at_mut(len);
    lower(some, &sums[skipped..skipped + len], skipped);
}

/// The same for the places at which the sums of one pixel of the left row count.
fn lower_some(keys: &mut [u32], sums: &[u16], there: Overlap)
    requires indices { there.skipped + there.len ≤ length sums.now }
    requires few { length sums.now ≤ MAX_COUNT }
    requires places { there.start + there.len ≤ length keys.old }
    ensures here { (k : ℕ) → k < there.len → slice_index keys.new (there.start + k)
        ≡ min (slice_index keys.old (there.start + k))
        (key_of (slice_index sums.now (there.skipped + k)) (there.skipped + k)) }
    ensures before { (m : ℕ) → m < there.start → slice_index keys.new m ≡ slice_index keys.old m }
    ensures after { (m : ℕ) → there.start + there.len ≤ m
        → slice_index keys.new m ≡ slice_index keys.old m }
{
    // Compiled apart as in `base_row`: most pixels have a place for each index.
    match there.len {
        64 => lower_part(keys, sums, there.skipped, there.start, 64),
        128 => lower_part(keys, sums, there.skipped, there.start, 128),
        len => lower_part(keys, sums, there.skipped, there.start, len),
    }
}

/// Where the index 0 of the column `p` of the left row would stand among so many columns of the
/// right row, from `from` on, which stand from right to left.
fn shift(from: usize, len: usize, span: Span, p: usize) -> i64
    requires columns { from + len < 2 ^ 61 }
    requires column { p < 2 ^ 61 }
    ensures { result +ℤ pos (p + 1) ≡ pos (from + len) +ℤ span.first }
{
    (from + len) as i64 + i64::from(span.first) - (p + 1) as i64
}

/// Lowers the keys of so many columns of the right row, of which `from` is the leftmost, by all
/// sums. The columns stand from right to left, so that the sums of one pixel of the left row count
/// at places that stand in order.
fn lower_all(keys: &mut [u32], sums: &[u16], width: usize, span: Span, from: usize)
    requires lengths { length sums.now ≡ width * span.count }
    requires columns { from + length keys.old ≤ width }
    requires wide { width < 2 ^ 61 }
    requires none { EachIndex keys.old (λ m. slice_index keys.old m ≡ NO_KEY) }
    ensures keys { HoldsKeys sums.now width span from width keys.new }
    ensures few { span.count ≤ MAX_COUNT }
{
    let count = span.count as usize;
    for p in 0..width {
        let shift = shift(from, keys.len(), span, p);
        let there = places(keys.len(), count, shift);
        lower_some(keys, &sums[p * count..(p + 1) * count], there);
    }
}

/// The index of a key.
fn index_of(key: u32) -> Option<u16>
    ensures { result ≡ (if key == NO_KEY then None else Some (key % MAX_COUNT)) }
{
    if key == NO_KEY {
        None
    } else {
        Some((key % MAX_COUNT) as u16)
    }
}

/// Writes the indices of the columns of the right row from `from` on.
fn match_some(sums: &[u16], width: usize, span: Span, from: usize, into: &mut [Option<u16>])
    requires lengths { length sums.now ≡ width * span.count }
    requires columns { from + length into.old ≤ width }
    requires wide { width < 2 ^ 61 }
    requires few { length into.old ≤ COLUMNS }
    ensures { EachIndex into.new (λ k. slice_get into.new k
        ≡ Some (matched_in sums.now width span.first span.count (from + k))) }
{
    let mut room = [NO_KEY; COLUMNS];
    let len = into.len();
    let (keys, _) = room.split_at_mut(len);
    lower_all(keys, sums, width, span, from);
    for k in 0..len {
        into[k] = index_of(keys[len - 1 - k]);
    }
}

/// Writes, for each pixel q of the right row, the least index at which the sum of the left row's
/// pixel `q + first + d` and the index d is least, over those d whose pixel lies in the row, and
/// None where there is none. The sums stand as for `base_row`. Takes no memory.
pub fn match_row(sums: &[u16], span: Span, into: &mut [Option<u16>])
    requires { length sums.now ≡ length into.old * span.count }
    ensures { EachIndex into.new (λ q. slice_get into.new q
        ≡ Some (matched_in sums.now (length into.new) span.first span.count q)) }
{
    let width = into.len();
    for block in 0..width.div_ceil(COLUMNS) {
        let from = block * COLUMNS;
        let (_, rest) = into.split_at_mut(from);
        let (columns, _) = rest.split_at_mut(COLUMNS.min(width - from));
        match_some(sums, width, span, from, columns);
    }
}
