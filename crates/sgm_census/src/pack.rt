//! Codes as words, a row of pixels at a time, so that many neighbours are compared with their
//! centres at once.

ghost use Rattle.std.specs.Prelude.{◌≡◌, ℕ, ◌+◌, ◌-◌, ◌*◌, ◌/◌, ◌%◌, ◌^◌, ◌<◌, ◌≤◌, ◌&&◌, nat_lt};
ghost use Rattle.std.specs.Prelude.{length, take, drop, slice_index, slice_index_or, false};
ghost use Rattle.std.specs.Prelude.{EachIndex};
ghost use Rattle.std.specs.Int.{from_bool};
ghost use Rattle.std.specs.List.{list_all};
ghost use Rattle.sgm_census.specs.Windows.{greatest_of};
ghost use Rattle.sgm_census.specs.Codes.{code_at};
ghost use Rattle.sgm_census.specs.Packed.{pushed, lesser, in_rows, all_in, word_to, without};
ghost use Rattle.sgm_census.specs.Packed.{AreBlank, HoldsEach};

use crate::Window;
use crate::coding::{Coding, Plain};
use sgm_base::MAX_WINDOW_WIDTH;

/// Pushes a bit for each place: whether the value is less than the centre.
fn push_bits(values: &[u16], centres: &[u16], bits: &mut [u16])
    requires values_length { length values.now ≡ length bits.old }
    requires centres_length { length centres.now ≡ length bits.old }
    requires room { (k : ℕ) → k < length bits.old → slice_index bits.old k < 2 ^ 15 }
    ensures { EachIndex bits.new (λ k. slice_index bits.new k
        ≡ 2 * slice_index bits.old k
        + from_bool (nat_lt (slice_index values.now k) (slice_index centres.now k))) }
{
    for k in 0..bits.len() {
        bits[k] = 2 * bits[k] + u16::from(values[k] < centres[k]);
    }
}

/// The word with so many bits more.
#[inline]
fn appended(word: u64, bits: u16, by: u32) -> u64
    requires few { by < 16 }
    requires small { bits < 2 ^ by }
    requires room { (word + 1) * 2 ^ by ≤ 2 ^ 63 }
    ensures { result ≡ word * 2 ^ by + bits }
{
    (word << by) + u64::from(bits)
}

/// Appends to each word its bits.
fn append(bits: &[u16], by: u32, words: &mut [u64])
    requires bits_length { length bits.now ≡ length words.old }
    requires few { by < 16 }
    requires small { (k : ℕ) → k < length words.old → slice_index bits.now k < 2 ^ by }
    requires room { (k : ℕ) → k < length words.old
        → (slice_index words.old k + 1) * 2 ^ by ≤ 2 ^ 63 }
    ensures { EachIndex words.new (λ k. slice_index words.new k
        ≡ slice_index words.old k * 2 ^ by + slice_index bits.now k) }
{
    for k in 0..words.len() {
        words[k] = appended(words[k], bits[k], by);
    }
}

/// The bits with three more: whether the values from `at` on are less than the centre.
#[inline]
fn three_more(bits: u16, values: &[u16], at: usize, centre: u16) -> u16
    requires room { bits < 2 ^ 13 }
    requires inside { at + 2 < length values.now }
    ensures { result ≡ pushed bits (lesser centre (take 3 (drop at values.now))) }
{
    let high = 4 * u16::from(values[at] < centre) + 2 * u16::from(values[at + 1] < centre);
    8 * bits + (high + u16::from(values[at + 2] < centre))
}

/// The bits of nine values from `at` on.
#[inline]
fn nine_bits(values: &[u16], at: usize, centre: u16) -> u16
    requires { at + 8 < length values.now }
    ensures { result ≡ pushed 0 (lesser centre (take 9 (drop at values.now))) }
{
    let three = three_more(0, values, at, centre);
    let six = three_more(three, values, at + 3, centre);
    three_more(six, values, at + 6, centre)
}

/// Writes nine bits for each place: whether the value there and those after it are less than the
/// centre.
fn write_nine(values: &[u16], centres: &[u16], bits: &mut [u16])
    requires values_length { length bits.old + 8 ≤ length values.now }
    requires centres_length { length centres.now ≡ length bits.old }
    ensures { EachIndex bits.new (λ k. slice_index bits.new k
        ≡ pushed 0 (lesser (slice_index centres.now k) (take 9 (drop k values.now)))) }
{
    for k in 0..bits.len() {
        bits[k] = nine_bits(values, k, centres[k]);
    }
}

/// Pushes three bits for each place: whether the value there and the two after it are less than the
/// centre. So the bits are read and written once for three values.
fn push_three(values: &[u16], centres: &[u16], bits: &mut [u16])
    requires values_length { length values.now ≡ length bits.old + 2 }
    requires centres_length { length centres.now ≡ length bits.old }
    requires room { (k : ℕ) → k < length bits.old → slice_index bits.old k < 2 ^ 13 }
    ensures { EachIndex bits.new (λ k. slice_index bits.new k
        ≡ pushed (slice_index bits.old k)
        (lesser (slice_index centres.now k) (take 3 (drop k values.now)))) }
{
    for k in 0..bits.len() {
        bits[k] = three_more(bits[k], values, k, centres[k]);
    }
}

/// Writes for each place the bits of the threes of places in a row of its window.
fn write_threes(row: &[u16], centres: &[u16], threes: usize, bits: &mut [u16])
    requires few { threes ≤ 3 }
    requires row_length { length bits.old + 3 * threes ≤ length row.now + 1 }
    requires centres_length { length centres.now ≡ length bits.old }
    ensures { EachIndex bits.new (λ k. slice_index bits.new k
        ≡ pushed 0 (lesser (slice_index centres.now k) (take (3 * threes) (drop k row.now)))) }
{
    // The widest window, which is the usual one.
    if threes == 3 {
        write_nine(row, centres, bits);
        return;
    }
    bits.fill(0);
    let len = bits.len();
    for i in 0..threes {
        push_three(&row[3 * i..3 * i + len + 2], centres, bits);
    }
}

/// Pushes to each word the bits of a row of its window, which is so wide. What `bits` holds before
/// does not matter.
fn push_row(row: &[u16], centres: &[u16], wide: usize, bits: &mut [u16], words: &mut [u64])
    requires wide { wide ≤ MAX_WINDOW_WIDTH }
    requires row_length { length row.now + 1 ≡ length words.old + wide }
    requires centres_length { length centres.now ≡ length words.old }
    requires bits_length { length bits.old ≡ length words.old }
    requires room { (k : ℕ) → k < length words.old
        → (slice_index words.old k + 1) * 2 ^ wide ≤ 2 ^ 63 }
    ensures { EachIndex words.new (λ k. slice_index words.new k
        ≡ pushed (slice_index words.old k)
        (lesser (slice_index centres.now k) (take wide (drop k row.now)))) }
{
    let len = bits.len();
    let threes = wide / 3;
    write_threes(row, centres, threes, bits);
    for i in 3 * threes..wide {
        push_bits(&row[i..i + len], centres, bits);
    }
    append(bits, wide as u32, words);
}

/// Whether all marks are set.
pub(crate) fn all_set(marks: &[bool]) -> bool
    ensures { result ≡ list_all (λ t. t) marks.now }
{
    let mut all = true;
    // No way out within, so that many marks are read at once.
    for mark in marks {
        all = all & *mark;
    }
    all
}

/// Keeps the marks where there is another.
fn keep(there: &[bool], present: &mut [bool])
    requires { length there.now ≡ length present.old }
    ensures { EachIndex present.new (λ k. slice_index_or present.new k false
        ≡ (slice_index_or present.old k false && slice_index_or there.now k false)) }
{
    for k in 0..present.len() {
        present[k] = present[k] & there[k];
    }
}

/// Keeps the marks where all values of a row of the window are there.
fn keep_row(row: &[bool], wide: usize, present: &mut [bool])
    requires { length row.now + 1 ≡ length present.old + wide }
    ensures { EachIndex present.new (λ k. slice_index_or present.new k false
        ≡ (slice_index_or present.old k false && list_all (λ t. t) (take wide (drop k row.now)))) }
{
    // Most rows have no void pixel.
    if all_set(row) {
        return;
    }
    let len = present.len();
    for i in 0..wide {
        keep(&row[i..i + len], present);
    }
}

/// The word without the bit above its lowest `half`.
pub(crate) fn without_centre(word: u64, half: u32) -> u64
    requires { half < 32 }
    ensures { result ≡ without half word }
{
    let low = word & ((1 << half) - 1);
    ((word >> (half + 1)) << half) | low
}

/// Takes the bits of the centres out.
fn drop_centres(words: &mut [u64], half: u32)
    requires { half < 32 }
    ensures { EachIndex words.new (λ k. slice_index words.new k
        ≡ without half (slice_index words.old k)) }
{
    for word in words.iter_mut() {
        *word = without_centre(*word, half);
    }
}

/// Writes for each column the bits of all values of the window whose first column it is and whose
/// first row is `top`: whether they are less than the column's centre. What `bits` holds before
/// does not matter.
fn window_words(
    plain: Plain,
    window: Window,
    top: usize,
    centres: &[u16],
    bits: &mut [u16],
    words: &mut [u64],
)
    requires rows { (top + window.height) * plain.width ≤ length plain.values.now }
    requires columns { length words.old + window.width ≡ plain.width + 1 }
    requires centres_length { length centres.now ≡ length words.old }
    requires bits_length { length bits.old ≡ length words.old }
    ensures { EachIndex words.new (λ k. slice_index words.new k
        ≡ pushed 0
        (lesser (slice_index centres.now k)
        (in_rows plain.entry.width plain.entry.values.now window k top))) }
{
    let width = plain.width;
    let (wide, high) = (window.width as usize, window.height as usize);
    words.fill(0);
    for j in 0..high {
        let from = (top + j) * width;
        push_row(
            &plain.values[from..from + width],
            centres,
            wide,
            bits,
            words,
        );
    }
}

/// Writes the words of a row of codes whose windows have their first row at `top`: those of the
/// columns whose windows lie in the plane, each against its centre, from right to left. The centres
/// stand from left to right.
pub(crate) fn code_words(
    plain: Plain,
    window: Window,
    top: usize,
    centres: &[u16],
    bits: &mut [u16],
    words: &mut [u64],
)
    requires rows { (top + window.height) * plain.width ≤ length plain.values.now }
    requires columns { length words.old + window.width ≡ plain.width + 1 }
    requires centres_length { length centres.now ≡ length words.old }
    requires bits_length { length bits.old ≡ length words.old }
    ensures { (k : ℕ) → k < length words.new → slice_index words.new k
        ≡ word_to plain.entry.width plain.entry.values.now window
        (slice_index centres.now (length words.new - 1 - k))
        (length words.new - 1 - k) top }
{
    window_words(plain, window, top, centres, bits, words);
    drop_centres(words, window.width * window.height / 2);
    words.reverse();
}

/// Writes for each column whether all values of its window are there.
fn window_marks(plain: Plain, window: Window, top: usize, present: &mut [bool])
    requires rows { (top + window.height) * plain.width ≤ length plain.there.now }
    requires columns { length present.old + window.width ≡ plain.width + 1 }
    ensures { EachIndex present.new (λ k. slice_index_or present.new k false
        ≡ all_in plain.entry.width plain.entry.there.now window k top) }
{
    let width = plain.width;
    let (wide, high) = (window.width as usize, window.height as usize);
    present.fill(true);
    for j in 0..high {
        let from = (top + j) * width;
        keep_row(&plain.there[from..from + width], wide, present);
    }
}

/// Writes the marks of a row of windows whose first row is `top`: whether all values of the window
/// are there, from right to left.
pub(crate) fn code_marks(plain: Plain, window: Window, top: usize, present: &mut [bool])
    requires rows { (top + window.height) * plain.width ≤ length plain.there.now }
    requires columns { length present.old + window.width ≡ plain.width + 1 }
    ensures { (k : ℕ) → k < length present.new → slice_index_or present.new k false
        ≡ all_in plain.entry.width plain.entry.there.now window (length present.new - 1 - k) top }
{
    window_marks(plain, window, top, present);
    present.reverse();
}

/// Writes the plain codes of the row `y`, from right to left. What `bits`, at least as wide as the
/// plane, holds before does not matter.
pub(crate) fn plain_row(
    coding: &Coding,
    y: usize,
    bits: &mut [u16],
    words: &mut [u64],
    present: &mut [bool],
)
    requires row { y < coding.now.plane.now.height }
    requires bits_length { coding.now.plane.now.width ≤ length bits.old }
    requires blank { AreBlank (greatest_of coding.now.window) coding.now.plane.now.width words.old
        present.old }
    ensures { let c = coding.now in HoldsEach (greatest_of c.window) c.plane.now.width
        (λ x. code_at c.plane.now c.window x y) words.new present.new }
{
    let (plain, window) = (coding.plain, coding.window);
    let (across, down) = (window.width as usize / 2, window.height as usize / 2);
    if plain.width <= 2 * across || y < down || plain.height.saturating_sub(down) <= y {
        return;
    }
    let len = plain.width - 2 * across;
    let from = y * plain.width + across;
    let (bits, _) = bits.split_at_mut(len);
    let (_, rest) = words.split_at_mut(across);
    let (inner, _) = rest.split_at_mut(len);
    let (_, rest) = present.split_at_mut(across);
    let (marks, _) = rest.split_at_mut(len);
    code_words(
        plain,
        window,
        y - down,
        &plain.values[from..from + len],
        bits,
        inner,
    );
    code_marks(plain, window, y - down, marks);
}
