// One step of the recurrence of path values: whole chunks, then the rest index by index.
ghost use Rattle.std.specs.Prelude.{◌≡◌, ℕ, ◌+◌, ◌-◌, ◌*◌, ◌/◌, ◌^◌, ◌<◌, ◌≤◌, ◌⊎◌, length};
ghost use Rattle.std.specs.Prelude.{slice_index, EachIndex, All, Contains, IsTrue, nat_lt};
ghost use Rattle.std.specs.Prelude.{if◌then◌else◌};
ghost use Rattle.sgm_energy.specs.Step.{IsStepped};
ghost use Rattle.sgm_lanes.specs.Steps.{CanStep, StepsTo, nth_of};

use crate::lane::{
    LANES, increase, lesser, load, load_bytes, minus, neighbours_left, neighbours_right, plus,
    repeated, store,
};
use crate::sums::add_rest;
use sgm_base::{MAX_COST, MAX_PATH_VALUE, MAX_PENALTY};
use std::simd::prelude::*;

/// Stands for a neighbour that is not there: no step is carried from a value so great.
const ABSENT: u16 = MAX_PATH_VALUE + MAX_PENALTY;

/// What one step is made from: the values of the pixel before, of which `floor` is the least or
/// less, the costs at the same indices, and the penalties.
#[derive(Clone, Copy)]
struct Terms<'a> {
    prev: &'a [u16],
    floor: u16,
    cost: &'a [u8],
    p1: u16,
    p2: u16,
    ghost can: { CanStep prev.now floor cost.now p1 p2 },
}

/// The left neighbours of the values from `at` on.
#[inline(always)]
fn lefts(prev: &[u16], at: usize) -> u16x16
    requires inside { at + LANES ≤ length prev.now }
    ensures len { length result ≡ LANES }
    ensures each { (i : ℕ) → i < LANES → slice_index result i
        ≡ (if nat_lt 0 (at + i) then slice_index prev.now (at + i - 1) else ABSENT) }
{
    if 0 < at {
        return load(prev, at - 1);
    }
    neighbours_left(repeated(ABSENT), load(prev, at))
}

/// The right neighbours of the values from `at` on.
#[inline(always)]
fn rights(prev: &[u16], at: usize) -> u16x16
    requires inside { at + LANES ≤ length prev.now }
    ensures len { length result ≡ LANES }
    ensures each { (i : ℕ) → i < LANES → slice_index result i
        ≡ (if nat_lt (at + i + 1) (length prev.now) then slice_index prev.now (at + i + 1)
        else ABSENT) }
{
    if at + LANES < prev.len() {
        load(prev, at + 1)
    } else {
        neighbours_right(load(prev, at), repeated(ABSENT))
    }
}

/// The step's values at the indices from `at` on, where `left` and `right` are the neighbours of
/// the values there.
#[inline(always)]
#[tactic(auto, unfolding(sgm_energy::specs::Step::carried))]
fn chunk(terms: &Terms, at: usize, left: u16x16, right: u16x16) -> u16x16
    requires inside { at + LANES ≤ length terms.now.prev.now }
    requires left_len { length left ≡ LANES }
    requires left { let prev = terms.now.prev.now in (i : ℕ) → i < LANES → slice_index left i
        ≡ (if nat_lt 0 (at + i) then slice_index prev (at + i - 1) else ABSENT) }
    requires right_len { length right ≡ LANES }
    requires right { let prev = terms.now.prev.now in (i : ℕ) → i < LANES → slice_index right i
        ≡ (if nat_lt (at + i + 1) (length prev) then slice_index prev (at + i + 1) else ABSENT) }
    ensures len { length result ≡ LANES }
    ensures each { let t = terms.now in (i : ℕ) → i < LANES
        → StepsTo t.prev.now t.floor t.cost.now t.p1 t.p2 (at + i) (slice_index result i) }
{
    let far = repeated(terms.floor + terms.p2);
    let beside = plus(lesser(left, right), repeated(terms.p1));
    let lowest = lesser(lesser(load(terms.prev, at), far), beside);
    let value = plus(load_bytes(terms.cost, at), lowest);
    minus(value, repeated(terms.floor))
}

/// Writes the lanes from `at` on, and where `ADD` says so adds them to the sums at their places.
#[inline(always)]
fn put<const ADD: bool>(lanes: u16x16, at: usize, into: &mut [u16], sums: &mut [u16])
    requires lanes { length lanes ≡ LANES }
    requires inside { at + LANES ≤ length into.old }
    requires sums_inside { IsTrue ADD → at + LANES ≤ length sums.old }
    requires fits { IsTrue ADD → (i : ℕ) → i < LANES
        → slice_index sums.old (at + i) + slice_index lanes i < 2 ^ 16 }
    ensures inside { (i : ℕ) → i < LANES → slice_index into.new (at + i) ≡ slice_index lanes i }
    ensures outside { (k : ℕ) → (k < at) ⊎ (at + LANES ≤ k)
        → slice_index into.new k ≡ slice_index into.old k }
    ensures added { IsTrue ADD → (i : ℕ) → i < LANES
        → slice_index sums.new (at + i) ≡ slice_index sums.old (at + i) + slice_index lanes i }
    ensures others { (k : ℕ) → (k < at) ⊎ (at + LANES ≤ k)
        → slice_index sums.new k ≡ slice_index sums.old k }
{
    store(lanes, at, into);
    if ADD {
        increase(lanes, at, sums);
    }
}

/// Which of so many chunks is the `i`-th to come: where `BACK` says so they come from the last to
/// the first.
#[inline(always)]
fn nth<const BACK: bool>(chunks: usize, i: usize) -> usize
    requires inside { i < chunks }
    ensures value { result ≡ nth_of BACK chunks i }
    ensures inside { result < chunks }
    ensures between { 0 < i → i + 1 < chunks → (0 < result) × (result + 1 < chunks) }
{
    if BACK { chunks - 1 - i } else { i }
}

/// The step at the indices of the whole chunks. The first and the last are apart so that nothing
/// branches between them. Where `BACK` says so the last comes first: where the pixels of a row come
/// from right to left, memory is then gone through in one direction, and fetched ahead.
#[inline(always)]
fn step_chunks<const ADD: bool, const BACK: bool>(terms: &Terms, into: &mut [u16], sums: &mut [u16])
    requires same_length { length terms.now.prev.now ≡ length into.old }
    requires sums_length { IsTrue ADD → length sums.old ≡ length into.old }
    requires room { IsTrue ADD
        → EachIndex sums.old (λ k. slice_index sums.old k + MAX_PATH_VALUE < 2 ^ 16) }
    ensures steps { let t = terms.now in (d : ℕ) → d < LANES * (length t.prev.now / LANES)
        → StepsTo t.prev.now t.floor t.cost.now t.p1 t.p2 d (slice_index into.new d) }
    ensures added { IsTrue ADD → (d : ℕ) → d < LANES * (length terms.now.prev.now / LANES)
        → slice_index sums.new d ≡ slice_index sums.old d + slice_index into.new d }
    ensures rest { IsTrue ADD → (k : ℕ) → LANES * (length terms.now.prev.now / LANES) ≤ k
        → slice_index sums.new k ≡ slice_index sums.old k }
{
    let prev = terms.prev;
    let chunks = prev.len() / LANES;
    if chunks == 0 {
        return;
    }
    let at = LANES * nth::<BACK>(chunks, 0);
    let first = chunk(terms, at, lefts(prev, at), rights(prev, at));
    put::<ADD>(first, at, into, sums);
    for number in 1..chunks - 1 {
        let at = LANES * nth::<BACK>(chunks, number);
        let inner = chunk(terms, at, load(prev, at - 1), load(prev, at + 1));
        put::<ADD>(inner, at, into, sums);
    }
    if 1 < chunks {
        let at = LANES * nth::<BACK>(chunks, chunks - 1);
        let last = chunk(terms, at, lefts(prev, at), rights(prev, at));
        put::<ADD>(last, at, into, sums);
    }
}

/// One step's value at the index `d`, which may be the first or the last.
#[inline(always)]
#[tactic(auto, unfolding(sgm_energy::specs::Step::carried))]
fn end_cell(terms: &Terms, d: usize) -> u16
    requires inside { d < length terms.now.prev.now }
    ensures { let t = terms.now in StepsTo t.prev.now t.floor t.cost.now t.p1 t.p2 d result }
{
    let prev = terms.prev;
    let mut lowest = prev[d].min(terms.floor + terms.p2);
    if d + 1 < prev.len() {
        lowest = lowest.min(prev[d + 1] + terms.p1);
    }
    if 0 < d {
        lowest = lowest.min(prev[d - 1] + terms.p1);
    }
    u16::from(terms.cost[d]) + (lowest - terms.floor)
}

/// One step's value at an index with another on each side.
#[inline(always)]
#[tactic(auto, unfolding(sgm_energy::specs::Step::carried))]
fn inner_cell(terms: &Terms, d: usize) -> u16
    requires after_first { 0 < d }
    requires before_last { d + 1 < length terms.now.prev.now }
    ensures { let t = terms.now in StepsTo t.prev.now t.floor t.cost.now t.p1 t.p2 d result }
{
    let prev = terms.prev;
    let beside = prev[d - 1].min(prev[d + 1]) + terms.p1;
    let lowest = prev[d].min(terms.floor + terms.p2).min(beside);
    u16::from(terms.cost[d]) + (lowest - terms.floor)
}

/// The step at the indices from `start` on.
#[inline(always)]
fn step_rest(terms: &Terms, start: usize, into: &mut [u16])
    requires same_length { length terms.now.prev.now ≡ length into.old }
    ensures before { (d : ℕ) → d < start → slice_index into.new d ≡ slice_index into.old d }
    ensures each { let t = terms.now in (d : ℕ) → start ≤ d → d < length t.prev.now
        → StepsTo t.prev.now t.floor t.cost.now t.p1 t.p2 d (slice_index into.new d) }
{
    if start >= into.len() {
        return;
    }
    let last = into.len() - 1;
    into[start] = end_cell(terms, start);
    // The ends are apart so that nothing branches in here.
    for d in start + 1..last {
        into[d] = inner_cell(terms, d);
    }
    into[last] = end_cell(terms, last);
}

/// The step at all indices, and where `ADD` says so each value is added to the sum at its place
/// while it is at hand. `BACK` is whether the chunks come from the last to the first.
#[inline(always)]
fn advance<const ADD: bool, const BACK: bool>(terms: &Terms, into: &mut [u16], sums: &mut [u16])
    requires same_length { length terms.now.prev.now ≡ length into.old }
    requires sums_length { IsTrue ADD → length sums.old ≡ length into.old }
    requires room { IsTrue ADD
        → EachIndex sums.old (λ k. slice_index sums.old k + MAX_PATH_VALUE < 2 ^ 16) }
    ensures steps { let t = terms.now in EachIndex into.new
        (λ d. StepsTo t.prev.now t.floor t.cost.now t.p1 t.p2 d (slice_index into.new d)) }
    ensures added { IsTrue ADD
        → EachIndex sums.new (λ k. slice_index sums.new k
        ≡ slice_index sums.old k + slice_index into.new k) }
{
    step_chunks::<ADD, BACK>(terms, into, sums);
    let rest = LANES * (terms.prev.len() / LANES);
    step_rest(terms, rest, into);
    if ADD {
        add_rest(sums, into, rest);
    }
}

/// One step of the recurrence: writes, for each index d, `cost[d]` plus the least of `prev[d]`,
/// `prev[d - 1] + p1`, `prev[d + 1] + p1` and `floor + p2`, less `floor`. Terms outside the slice
/// are left out. The three slices have one length, and `floor` is the least of `prev`.
#[inline(always)]
pub fn step(prev: &[u16], floor: u16, cost: &[u8], p1: u16, p2: u16, into: &mut [u16])
    requires some { 0 < length into.old }
    requires same_length { (length prev.now ≡ length into.old)
        × (length cost.now ≡ length into.old) }
    requires floor { Contains prev.now floor × All (λ x. floor ≤ x) prev.now }
    requires penalties { (p1 ≤ p2) × (p2 ≤ MAX_PENALTY) }
    requires values { All (λ x. x ≤ MAX_PATH_VALUE) prev.now }
    requires costs { All (λ x. x ≤ MAX_COST) cost.now }
    ensures { EachIndex into.new
        (λ d. IsStepped (slice_index prev.now) (length prev.now) p1 p2 floor
        (slice_index cost.now d) d (slice_index into.new d)) }
{
    let terms = Terms {
        prev,
        floor,
        cost,
        p1,
        p2,
    };
    advance::<false, false>(&terms, into, &mut []);
}

/// One step as [`step`] makes it, whose values are added to the sums at their places while they are
/// at hand. All four slices have one length, and each sum has room for the greatest path value.
/// `BACK` is whether the greater indices come first, which changes nothing but the time.
#[inline(always)]
pub fn add_step<const BACK: bool>(
    prev: &[u16],
    floor: u16,
    cost: &[u8],
    p1: u16,
    p2: u16,
    into: &mut [u16],
    sums: &mut [u16],
)
    requires some { 0 < length into.old }
    requires same_length { (length prev.now ≡ length into.old)
        × (length cost.now ≡ length into.old) × (length sums.old ≡ length into.old) }
    requires floor { Contains prev.now floor × All (λ x. floor ≤ x) prev.now }
    requires penalties { (p1 ≤ p2) × (p2 ≤ MAX_PENALTY) }
    requires limits { All (λ x. x ≤ MAX_PATH_VALUE) prev.now
        × All (λ x. x ≤ MAX_COST) cost.now }
    requires room { EachIndex sums.old (λ k. slice_index sums.old k + MAX_PATH_VALUE < 2 ^ 16) }
    ensures steps { EachIndex into.new
        (λ d. IsStepped (slice_index prev.now) (length prev.now) p1 p2 floor
        (slice_index cost.now d) d (slice_index into.new d)) }
    ensures added { EachIndex sums.new (λ k. slice_index sums.new k
        ≡ slice_index sums.old k + slice_index into.new k) }
{
    let terms = Terms {
        prev,
        floor,
        cost,
        p1,
        p2,
    };
    advance::<true, BACK>(&terms, into, sums);
}
