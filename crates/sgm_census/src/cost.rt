ghost use Rattle.std.specs.Prelude.{◌≡◌, ℕ, ◌+◌, ◌-◌, ◌*◌, ◌^◌, ◌<◌, ◌≤◌, ◌⊎◌, length, slice_index};
ghost use Rattle.std.specs.Prelude.{slice_index_or, All, EachIndex, Some, option_and_then, OnOk};
ghost use Rattle.std.specs.Prelude.{if◌then◌else◌, false};
ghost use Rattle.sgm_base.specs.Columns.{left_column};
ghost use Rattle.sgm_lanes.specs.Middles.{smoothed};
ghost use Rattle.sgm_census.specs.Windows.{greatest_of};
ghost use Rattle.sgm_census.specs.Appending.{AppendsCosts};
ghost use Rattle.sgm_census.specs.Costs.{cost_between, missing_cost, single_cost, cost_by};
ghost use Rattle.sgm_census.specs.Costs.{census_cost};
ghost use Rattle.sgm_census.specs.Packed.{bits_of, unpacked, HoldsSmall};
ghost use Rattle.sgm_census.specs.declared.rule.CostRule.TheVariants.{Smoothed};

use crate::code_plane::{CodePlane, CodeRow};
use crate::{CostRule, Window};
use sgm_base::{MAX_COST, MAX_COUNT, Overlap, Span};
use sgm_lanes::{differing, hamming_to, smooth, smooth_last};
use std::alloc::AllocError;

/// How many bits the codes of a pair of planes have, and the cost where a code is missing.
#[derive(Clone, Copy)]
struct Scale {
    bits: u8,
    missing: u8,
}

/// The scale of a rule's costs in a window.
fn scale_of(rule: CostRule, window: Window) -> Scale
    ensures bits { result.bits ≡ greatest_of window }
    ensures missing { result.missing ≡ missing_cost rule window }
    ensures most { (result.bits ≤ MAX_COST) × (result.missing ≤ MAX_COST) }
{
    let bits = window.greatest();
    let missing = match rule {
        CostRule::Plain => bits,
        CostRule::Smoothed => 3 * bits / 7,
    };
    Scale { bits, missing }
}

/// Replaces by `missing` the costs where there is no code.
#[inline(always)]
fn mask(present: &[bool], missing: u8, into: &mut [u8])
    requires { length present.now ≡ length into.old }
    ensures { EachIndex into.new (λ k.
        slice_index into.new k
        ≡ (if slice_index_or present.now k false then slice_index into.old k else missing)) }
{
    for i in 0..into.len() {
        let cost = into[i];
        into[i] = if present[i] { cost } else { missing };
    }
}

/// Writes the costs of a code against each of some others.
#[inline(always)]
fn cost_each(code: u64, words: &[u64], present: &[bool], scale: Scale, into: &mut [u8])
    requires words_length { length words.now ≡ length into.old }
    requires present_length { length present.now ≡ length into.old }
    requires code { code < 2 ^ scale.bits }
    requires words { HoldsSmall scale.bits words.now }
    ensures { EachIndex into.new (λ k. slice_index into.new k
        ≡ cost_between scale.missing (Some (bits_of scale.bits code))
        (unpacked scale.bits words.now present.now k)) }
{
    hamming_to(code, words, into);
    mask(present, scale.missing, into);
}

/// Writes the single costs of the pixel whose code stands at `place` in its row, index by index.
#[inline(always)]
fn cost_pixel(
    left: CodeRow,
    right: CodeRow,
    scale: Scale,
    span: Span,
    place: usize,
    into: &mut [u8],
)
    requires place { place < length left.words.now }
    requires left_present { length left.present.now ≡ length left.words.now }
    requires right_words { length right.words.now ≡ length left.words.now }
    requires right_present { length right.present.now ≡ length left.words.now }
    requires left_small { HoldsSmall scale.bits left.words.now }
    requires right_small { HoldsSmall scale.bits right.words.now }
    requires whole { length into.old ≡ span.count }
    ensures { (d : ℕ) → d < span.count → slice_index into.new d
        ≡ cost_between scale.missing
        (unpacked scale.bits left.entry.words.now left.entry.present.now place)
        (option_and_then (unpacked scale.bits right.entry.words.now right.entry.present.now)
        (left_column (length left.entry.words.now) span.first place d)) }
{
    if !left.present[place] {
        into.fill(scale.missing);
        return;
    }
    let there = Overlap::of(left.words.len(), span, place);
    let end = there.start + there.len;
    let (before, rest) = into.split_at_mut(there.skipped);
    let (inside, after) = rest.split_at_mut(there.len);
    before.fill(scale.missing);
    cost_each(
        left.words[place],
        &right.words[there.start..end],
        &right.present[there.start..end],
        scale,
        inside,
    );
    after.fill(scale.missing);
}

/// Writes the single costs of the row `y`: that of the column x and the index d at `x * count + d`.
fn single_row(left: &CodePlane, right: &CodePlane, span: Span, y: u32, into: &mut [u8])
    requires same_width { left.now.width ≡ right.now.width }
    requires same_height { left.now.height ≡ right.now.height }
    requires same_window { left.now.window ≡ right.now.window }
    requires row { y < left.now.height }
    requires whole { length into.old ≡ left.now.width * span.count }
    ensures each { (x d : ℕ) → x < left.now.width → d < span.count
        → slice_index into.new (x * span.count + d)
        ≡ single_cost left.now right.now span.first x y d }
    ensures most { All (λ c. c ≤ MAX_COST) into.new }
{
    let count = span.count as usize;
    let scale = scale_of(left.rule(), left.window());
    let (left, right) = (left.row(y), right.row(y));
    let width = left.words.len();
    for x in 0..width {
        let (_, rest) = into.split_at_mut(x * count);
        let (cells, _) = rest.split_at_mut(count);
        let place = width - 1 - x;
        cost_pixel(left, right, scale, span, place, cells);
    }
}

/// Smooths the costs of a pixel, which stand from `at` on, between those before it and those of the
/// next pixel, which follow. Then `before` has the pixel's costs as they were.
#[inline(always)]
fn smooth_at(before: &mut [u8], at: usize, costs: &mut [u8])
    requires room { at + 2 * length before.old ≤ length costs.old }
    requires before_small { All (λ c. c ≤ MAX_COST) before.old }
    requires small { All (λ c. c ≤ MAX_COST) costs.old }
    ensures inside { (d : ℕ) → d < length before.old → slice_index costs.new (at + d)
        ≡ smoothed (slice_index before.old d) (slice_index costs.old (at + d))
        (slice_index costs.old (at + length before.old + d)) }
    ensures outside { (k : ℕ) → (k < at) ⊎ (at + length before.old ≤ k)
        → slice_index costs.new k ≡ slice_index costs.old k }
    ensures kept { (d : ℕ) → d < length before.old
        → slice_index before.new d ≡ slice_index costs.old (at + d) }
    ensures before_small { All (λ c. c ≤ MAX_COST) before.new }
    ensures small { All (λ c. c ≤ MAX_COST) costs.new }
{
    let count = before.len();
    let (_, rest) = costs.split_at_mut(at);
    let (cells, after) = rest.split_at_mut(count);
    smooth(before, cells, &after[..count]);
}

/// Smooths the costs of a row's last pixel, which stand from `at` on, between those before it and
/// its own.
#[inline(always)]
fn smooth_end(before: &[u8], at: usize, costs: &mut [u8])
    requires room { at + length before.now ≡ length costs.old }
    requires before_small { All (λ c. c ≤ MAX_COST) before.now }
    requires small { All (λ c. c ≤ MAX_COST) costs.old }
    ensures inside { (d : ℕ) → d < length before.now → slice_index costs.new (at + d)
        ≡ smoothed (slice_index before.now d) (slice_index costs.old (at + d))
        (slice_index costs.old (at + d)) }
    ensures outside { (k : ℕ) → k < at → slice_index costs.new k ≡ slice_index costs.old k }
    ensures small { All (λ c. c ≤ MAX_COST) costs.new }
{
    let (_, cells) = costs.split_at_mut(at);
    smooth_last(before, cells);
}

/// Smooths the costs of a row so wide, `count` a pixel, from the first pixel to the last.
fn smooth_row(width: usize, count: usize, costs: &mut [u8])
    requires wide { 0 < width }
    requires count { (0 < count) × (count ≤ MAX_COUNT) }
    requires whole { length costs.old ≡ width * count }
    requires small { All (λ c. c ≤ MAX_COST) costs.old }
    ensures each { (x d : ℕ) → x < width → d < count → slice_index costs.new (x * count + d)
        ≡ cost_by Smoothed width (λ q. slice_index costs.old (q * count + d)) x }
    ensures most { All (λ c. c ≤ MAX_COST) costs.new }
{
    // The costs before a pixel as they were; before the first stand its own.
    let mut room = [0u8; MAX_COUNT as usize];
    let (before, _) = room.split_at_mut(count);
    before.copy_from_slice(&costs[..count]);
    for x in 0..width - 1 {
        smooth_at(before, x * count, costs);
    }
    smooth_end(before, (width - 1) * count, costs);
}

/// Writes the costs of the row `y`: that of the column x and the index d, which stands for the
/// disparity `first + d`, at `x * count + d`. By the plain rule it is the single cost: the number
/// of places in which the left code at (x, y) and the right code at (x - first - d, y) differ, or
/// the window's greatest cost where either is none or outside. By the smoothed rule it is a
/// quarter, rounded down, of the single costs at x - 1 and x + 1 and twice that at x, where three
/// sevenths of the greatest stand for a missing code, and the pixel itself for one beside it that
/// lies outside. Takes no memory.
pub fn cost_row(left: &CodePlane, right: &CodePlane, span: Span, y: u32, into: &mut [u8])
    requires same_width { left.now.width ≡ right.now.width }
    requires same_height { left.now.height ≡ right.now.height }
    requires same_window { left.now.window ≡ right.now.window }
    requires row { y < left.now.height }
    requires whole { length into.old ≡ left.now.width * span.count }
    ensures each { (x d : ℕ) → x < left.now.width → d < span.count
        → slice_index into.new (x * span.count + d)
        ≡ census_cost left.now right.now span.first x y d }
    ensures most { All (λ c. c ≤ MAX_COST) into.new }
{
    single_row(left, right, span, y, into);
    match left.rule() {
        CostRule::Plain => {}
        CostRule::Smoothed => {
            smooth_row(left.size().width as usize, span.count as usize, into);
        }
    }
}

/// Appends the single costs of the row `y`, pixel by pixel.
fn append_single(
    left: &CodePlane,
    right: &CodePlane,
    span: Span,
    y: u32,
    into: &mut Vec<u8>,
) -> Result<(), AllocError>
    requires same_width { left.now.width ≡ right.now.width }
    requires same_height { left.now.height ≡ right.now.height }
    requires same_window { left.now.window ≡ right.now.window }
    requires row { y < left.now.height }
    ensures { OnOk result
        (AppendsCosts left.now.width span.count
        (λ x d. single_cost left.now right.now span.first x y d) into.old.items into.new.items) }
{
    let count = span.count as usize;
    let scale = scale_of(left.rule(), left.window());
    let (left, right) = (left.row(y), right.row(y));
    let width = left.words.len();
    // A pixel's costs, which stay in the first cache until they are appended.
    let mut room = [0u8; MAX_COUNT as usize];
    let (cells, _) = room.split_at_mut(count);
    for x in 0..width {
        cost_pixel(left, right, scale, span, width - 1 - x, cells);
        into.extend_from_slice(cells)?;
    }
    Ok(())
}

/// Appends the costs of the row `y`: what [`cost_row`] writes. A pixel's costs are made in a small
/// room and appended while they are in the first cache, so that new memory is written once. After
/// an error `into` may have some of them.
pub fn append_costs(
    left: &CodePlane,
    right: &CodePlane,
    span: Span,
    y: u32,
    into: &mut Vec<u8>,
) -> Result<(), AllocError>
    requires same_width { left.now.width ≡ right.now.width }
    requires same_height { left.now.height ≡ right.now.height }
    requires same_window { left.now.window ≡ right.now.window }
    requires row { y < left.now.height }
    ensures { OnOk result
        (AppendsCosts left.now.width span.count
        (λ x d. census_cost left.now right.now span.first x y d) into.old.items into.new.items) }
{
    let at = into.len();
    append_single(left, right, span, y, into)?;
    match left.rule() {
        CostRule::Plain => {}
        CostRule::Smoothed => {
            let (_, row) = into.split_at_mut(at);
            smooth_row(left.size().width as usize, span.count as usize, row);
        }
    }
    Ok(())
}

/// The cost of a code against the one that stands at `place` in a row of the right image.
fn cost_beside(code: u64, right: CodeRow, scale: Scale, place: usize) -> u8
    requires words { place < length right.words.now }
    requires present { place < length right.present.now }
    requires code { code < 2 ^ scale.bits }
    requires small { HoldsSmall scale.bits right.words.now }
    ensures { result ≡ cost_between scale.missing (Some (bits_of scale.bits code))
        (unpacked scale.bits right.entry.words.now right.entry.present.now place) }
{
    if right.present[place] {
        differing(code, right.words[place])
    } else {
        scale.missing
    }
}

/// The single cost of the index `d` at the pixel whose code stands at `place` in its row.
fn cost_index(left: CodeRow, right: CodeRow, scale: Scale, span: Span, place: usize, d: usize) -> u8
    requires place { place < length left.words.now }
    requires index { d < span.count }
    requires left_present { length left.present.now ≡ length left.words.now }
    requires right_words { length right.words.now ≡ length left.words.now }
    requires right_present { length right.present.now ≡ length left.words.now }
    requires left_small { HoldsSmall scale.bits left.words.now }
    requires right_small { HoldsSmall scale.bits right.words.now }
    ensures { result
        ≡ cost_between scale.missing
        (unpacked scale.bits left.entry.words.now left.entry.present.now place)
        (option_and_then (unpacked scale.bits right.entry.words.now right.entry.present.now)
        (left_column (length left.entry.words.now) span.first place d)) }
{
    let there = Overlap::of(left.words.len(), span, place);
    if !left.present[place] || d < there.skipped || there.skipped + there.len <= d {
        return scale.missing;
    }
    let other = there.start + (d - there.skipped);
    cost_beside(left.words[place], right, scale, other)
}

/// The single cost of the column `x` and the index `d` in the row `y`.
fn single_at(left: &CodePlane, right: &CodePlane, span: Span, x: u32, y: u32, d: u32) -> u8
    requires same_width { left.now.width ≡ right.now.width }
    requires same_height { left.now.height ≡ right.now.height }
    requires same_window { left.now.window ≡ right.now.window }
    requires column { x < left.now.width }
    requires row { y < left.now.height }
    requires index { d < span.count }
    ensures cost { result ≡ single_cost left.now right.now span.first x y d }
    ensures most { result ≤ MAX_COST }
{
    let scale = scale_of(left.rule(), left.window());
    let (left, right) = (left.row(y), right.row(y));
    let place = left.words.len() - 1 - x as usize;
    cost_index(left, right, scale, span, place, d as usize)
}

/// The cost of the column `x` and the index `d` in the row `y`: what [`cost_row`] writes there.
/// Takes no memory.
pub fn cost_at(left: &CodePlane, right: &CodePlane, span: Span, x: u32, y: u32, d: u32) -> u8
    requires same_width { left.now.width ≡ right.now.width }
    requires same_height { left.now.height ≡ right.now.height }
    requires same_window { left.now.window ≡ right.now.window }
    requires column { x < left.now.width }
    requires row { y < left.now.height }
    requires index { d < span.count }
    ensures { result ≡ census_cost left.now right.now span.first x y d }
{
    let here = single_at(left, right, span, x, y, d);
    match left.rule() {
        CostRule::Plain => here,
        CostRule::Smoothed => {
            let width = left.size().width;
            let next = (x + 1).min(width - 1);
            let before = single_at(left, right, span, x.saturating_sub(1), y, d);
            let after = single_at(left, right, span, next, y, d);
            (before + 2 * here + after) / 4
        }
    }
}
