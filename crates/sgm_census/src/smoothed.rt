//! Codes of the smoothed rule: neighbours against the middle of five values, and a pixel's own
//! value in the place of neighbours that are void or outside. Where all of a window is there, its
//! code is made with those of its row.

ghost use Rattle.std.specs.Prelude.{◌≡◌, ◌≢◌, ℕ, ◌+◌, ◌-◌, ◌*◌, ◌/◌, ◌^◌, ◌<◌, ◌≤◌, nat_lt, length};
ghost use Rattle.std.specs.Prelude.{map, option_map, slice_index, slice_index_or, unwrap_or, Some};
ghost use Rattle.std.specs.Prelude.{true, false, IfSome};
ghost use Rattle.std.specs.List.{flat_map, range_with_len};
ghost use Rattle.sgm_base.specs.Values.{IsValues, value_at};
ghost use Rattle.sgm_census.specs.Codes.{middle_at, smoothed_code_at, three_by_three, value_near};
ghost use Rattle.sgm_census.specs.Packed.{AreBlank, HoldsEach, HoldsPlain, bits_of, pushed};
ghost use Rattle.sgm_census.specs.Packed.{unpacked, word_to};
ghost use Rattle.sgm_census.specs.Smoothing.{HasMiddles, IsInside, IsWhole, word_by};
ghost use Rattle.sgm_census.specs.Windows.{greatest_of};
ghost use Rattle.sgm_lanes.specs.Middles.{middle_of};

use crate::Window;
use crate::coding::{Coding, Plain};
use crate::pack::{all_set, code_marks, code_words, without_centre};
use sgm_base::Plane;
use sgm_lanes::{middle, middles};

/// The window of a pixel and those beside it.
const BESIDE: Window = Window {
    width: 3,
    height: 3,
};

/// A pixel that is coded: its column and row, its value and its middle.
#[derive(Clone, Copy)]
struct Centre {
    x: usize,
    y: usize,
    own: u16,
    middle: u16,
}

/// The value of the pixel (x, y), none where it is void or outside.
#[inline]
fn pixel(plane: &Plane, x: usize, y: usize) -> Option<u16>
    ensures { result ≡ value_at plane.now x y }
{
    let size = plane.size();
    let (width, height) = (size.width as usize, size.height as usize);
    if x < width && y < height {
        plane.entries()[y * width + x]
    } else {
        None
    }
}

/// The value in the column `i` and the row `j` of the window round the pixel (x, y), none where it
/// is void or outside.
#[inline]
fn near(plane: &Plane, window: Window, x: usize, y: usize, i: usize, j: usize) -> Option<u16>
    requires column { x + i < 2 ^ 16 }
    requires row { y + j < 2 ^ 16 }
    ensures { result ≡ value_near plane.now window x y i j }
{
    let (across, down) = (window.width as usize / 2, window.height as usize / 2);
    if across <= x + i && down <= y + j {
        pixel(plane, x + i - across, y + j - down)
    } else {
        None
    }
}

/// The same of the pixels beside (x, y), or `own` where there is no value.
#[inline]
fn beside(plane: &Plane, x: usize, y: usize, own: u16, i: usize, j: usize) -> u16
    requires column { x + i < 2 ^ 16 }
    requires row { y + j < 2 ^ 16 }
    ensures { result ≡ unwrap_or (value_near plane.now three_by_three x y i j) own }
{
    near(plane, BESIDE, x, y, i, j).unwrap_or(own)
}

/// The middle of the pixel (x, y), whose value is `own`.
fn middle_near(plane: &Plane, x: usize, y: usize, own: u16) -> u16
    requires column { x < 2 ^ 15 }
    requires row { y < 2 ^ 15 }
    ensures { result ≡ middle_at plane.now x y own }
{
    let (right, left) = (
        beside(plane, x, y, own, 2, 1),
        beside(plane, x, y, own, 0, 1),
    );
    let (below, above) = (
        beside(plane, x, y, own, 1, 2),
        beside(plane, x, y, own, 1, 0),
    );
    middle(own, right, left, below, above)
}

/// Writes the middle of the pixel (x, y), where it isn't void.
fn write_middle(plane: &Plane, x: usize, y: usize, into: &mut [u16])
    requires column { x < length into.old }
    requires small { (x < 2 ^ 15) × (y < 2 ^ 15) }
    ensures written { (own : ℕ) → value_at plane.now x y ≡ Some own
        → slice_index into.new x ≡ middle_at plane.now x y own }
    ensures others { (k : ℕ) → k ≢ x → slice_index into.new k ≡ slice_index into.old k }
{
    if let Some(own) = pixel(plane, x, y) {
        into[x] = middle_near(plane, x, y, own);
    }
}

/// Writes the middles of the row `y`, one by one.
fn each_middle(plane: &Plane, y: usize, into: &mut [u16])
    requires wide { length into.old ≡ plane.now.width }
    requires row { y < plane.now.height }
    ensures { HasMiddles plane.now y into.new }
{
    let _ = plane.size();
    for x in 0..into.len() {
        write_middle(plane, x, y, into);
    }
}

/// Writes the middles of the row `y` but for its first and its last column, where all values in it,
/// above it and below it are there.
fn inner_middles(plain: Plain, y: usize, into: &mut [u16])
    requires wide { (length into.old ≡ plain.width) × (3 ≤ plain.width) }
    requires rows { (1 ≤ y) × ((y + 2) * plain.width ≤ length plain.values.now) }
    ensures { (k : ℕ) → k + 2 < plain.entry.width → let value : ℕ → ℕ
        → ℕ = λ r q. slice_index plain.entry.values.now (r * plain.entry.width + q) in
        slice_index into.new (k + 1)
        ≡ middle_of (value y (k + 1)) (value y (k + 2)) (value y k) (value (y + 1) (k + 1))
        (value (y - 1) (k + 1)) }
{
    let (width, values) = (plain.width, plain.values);
    let len = width - 2;
    let (above, here, below) = ((y - 1) * width, y * width, (y + 1) * width);
    let (_, rest) = into.split_at_mut(1);
    let (inner, _) = rest.split_at_mut(len);
    middles(
        &values[here + 1..here + 1 + len],
        &values[here + 2..here + 2 + len],
        &values[here..here + len],
        &values[below + 1..below + 1 + len],
        &values[above + 1..above + 1 + len],
        inner,
    );
}

/// Writes the middles of the row `y`.
fn row_middles(plane: &Plane, plain: Plain, y: usize, into: &mut [u16])
    requires holds { HoldsPlain plane.now plain.values.now plain.there.now plain.width
        plain.height }
    requires wide { length into.old ≡ plane.now.width }
    requires row { y < plane.now.height }
    ensures { HasMiddles plane.now y into.new }
{
    let _ = plane.size();
    let width = plain.width;
    if width < 3 || y < 1 || plain.height <= y + 1 {
        each_middle(plane, y, into);
        return;
    }
    if all_set(&plain.there[(y - 1) * width..(y + 2) * width]) {
        inner_middles(plain, y, into);
        write_middle(plane, 0, y, into);
        write_middle(plane, width - 1, y, into);
    } else {
        each_middle(plane, y, into);
    }
}

/// The word with the bits of the row `j` of a pixel's window.
fn push_near(plane: &Plane, window: Window, at: Centre, j: usize, word: u64) -> u64
    requires pixel { (at.x < 2 ^ 15) × (at.y < 2 ^ 15) }
    requires row { j < window.height }
    requires room { (word + 1) * 2 ^ window.width ≤ 2 ^ 63 }
    ensures { result
        ≡ pushed word
        (map (λ i. nat_lt (unwrap_or (value_near plane.now window at.x at.y i j) at.own) at.middle)
        (range_with_len 0 window.width)) }
{
    let mut word = word;
    for i in 0..window.width as usize {
        let value = near(plane, window, at.x, at.y, i, j).unwrap_or(at.own);
        word = 2 * word + u64::from(value < at.middle);
    }
    word
}

/// The code of a pixel as a word, each neighbour that is void or outside with the pixel's own
/// value.
fn near_word(plane: &Plane, window: Window, at: Centre) -> u64
    requires pixel { (at.x < 2 ^ 15) × (at.y < 2 ^ 15) }
    ensures { result ≡ word_by plane.now window at.x at.y at.own at.middle }
{
    let mut word = 0;
    for j in 0..window.height as usize {
        word = push_near(plane, window, at, j, word);
    }
    without_centre(word, window.width * window.height / 2)
}

/// The code of the pixel (x, y), whose middle is given, as a word. Few pixels are coded so; within
/// the loop that looks for them, it would slow it down.
#[inline(never)]
fn coded(plane: &Plane, window: Window, x: usize, y: usize, middle: u16) -> Option<u64>
    requires pixel { (x < 2 ^ 15) × (y < 2 ^ 15) }
    requires middle { (own : ℕ) → value_at plane.now x y ≡ Some own
        → middle ≡ middle_at plane.now x y own }
    ensures code { option_map (bits_of (greatest_of window)) result
        ≡ smoothed_code_at plane.now window x y }
    ensures within { IfSome result (λ word. word < 2 ^ greatest_of window) }
{
    // Known from here on: the window's range.
    let _ = &window.width;
    let own = pixel(plane, x, y)?;
    let at = Centre { x, y, own, middle };
    Some(near_word(plane, window, at))
}

/// Writes a word and its mark, where there is one.
fn put(word: Option<u64>, place: usize, words: &mut [u64], present: &mut [bool])
    requires place { (place < length words.old) × (place < length present.old) }
    requires none { slice_index_or present.old place false ≡ false }
    ensures put { (n : ℕ) → unpacked n words.new present.new place ≡ option_map (bits_of n) word }
    ensures within { (limit : ℕ) → IfSome word (λ w. w < limit)
        → slice_index words.old place < limit → slice_index words.new place < limit }
    ensures words { (k : ℕ) → k ≢ place → slice_index words.new k ≡ slice_index words.old k }
    ensures present { (k : ℕ) → k ≢ place
        → slice_index_or present.new k false ≡ slice_index_or present.old k false }
{
    if let Some(word) = word {
        words[place] = word;
        present[place] = true;
    }
}

/// Writes the codes of the row `y` that aren't marked yet, from right to left.
fn complete(
    plane: &Plane,
    window: Window,
    y: usize,
    middles: &[u16],
    words: &mut [u64],
    present: &mut [bool],
)
    requires row { y < plane.now.height }
    requires middles { HasMiddles plane.now y middles.now }
    requires middles_length { length middles.now ≡ plane.now.width }
    requires words_length { length words.old ≡ plane.now.width }
    requires present_length { length present.old ≡ plane.now.width }
    requires within { (k : ℕ) → slice_index words.old k < 2 ^ greatest_of window }
    requires marked { (x : ℕ) → x < plane.now.width
        → slice_index_or present.old (plane.now.width - 1 - x) false ≡ true
        → unpacked (greatest_of window) words.old present.old (plane.now.width - 1 - x)
        ≡ smoothed_code_at plane.now window x y }
    ensures { HoldsEach (greatest_of window) plane.now.width
        (λ x. smoothed_code_at plane.now window x y) words.new present.new }
{
    let _ = plane.size();
    let width = middles.len();
    for x in 0..width {
        let place = width - 1 - x;
        if !present[place] {
            put(
                coded(plane, window, x, y, middles[x]),
                place,
                words,
                present,
            );
        }
    }
}

/// Writes the words of the pixels of the row `y` whose windows lie in the plane, from right to
/// left.
fn inner_words(
    plain: Plain,
    window: Window,
    y: usize,
    middles: &[u16],
    bits: &mut [u16],
    words: &mut [u64],
)
    requires values { length plain.values.now ≡ plain.width * plain.height }
    requires middles_length { length middles.now ≡ plain.width }
    requires bits_length { length bits.old ≡ plain.width }
    requires words_length { length words.old ≡ plain.width }
    requires within { (k : ℕ) → slice_index words.old k < 2 ^ greatest_of window }
    ensures whole { (x : ℕ) → IsInside plain.entry.width plain.entry.height window x y
        → slice_index words.new (plain.entry.width - 1 - x)
        ≡ word_to plain.entry.width plain.entry.values.now window (slice_index middles.now x)
        (x - window.width / 2) (y - window.height / 2) }
    ensures within { (k : ℕ) → slice_index words.new k < 2 ^ greatest_of window }
{
    let (across, down) = (window.width as usize / 2, window.height as usize / 2);
    if plain.width <= 2 * across || y < down || plain.height.saturating_sub(down) <= y {
        return;
    }
    let len = plain.width - 2 * across;
    let (bits, _) = bits.split_at_mut(len);
    let (_, rest) = words.split_at_mut(across);
    let (inner, _) = rest.split_at_mut(len);
    code_words(
        plain,
        window,
        y - down,
        &middles[across..across + len],
        bits,
        inner,
    );
}

/// Marks the pixels of the row `y` whose windows lie in the plane and are all there, from right to
/// left.
fn inner_marks(plain: Plain, window: Window, y: usize, present: &mut [bool])
    requires there { length plain.there.now ≡ plain.width * plain.height }
    requires present_length { length present.old ≡ plain.width }
    requires none { (k : ℕ) → slice_index_or present.old k false ≡ false }
    ensures { (x : ℕ) → x < plain.entry.width
        → slice_index_or present.new (plain.entry.width - 1 - x) false ≡ true
        → IsWhole plain.entry.width plain.entry.height plain.entry.there.now window x y }
{
    let (across, down) = (window.width as usize / 2, window.height as usize / 2);
    if plain.width <= 2 * across || y < down || plain.height.saturating_sub(down) <= y {
        return;
    }
    let len = plain.width - 2 * across;
    let (_, rest) = present.split_at_mut(across);
    let (inner, _) = rest.split_at_mut(len);
    code_marks(plain, window, y - down, inner);
}

/// Writes the smoothed codes of the row `y`, from right to left. What `room`, twice as wide as the
/// plane, holds before does not matter.
pub(crate) fn smoothed_row(
    coding: &Coding,
    y: usize,
    room: &mut [u16],
    words: &mut [u64],
    present: &mut [bool],
)
    requires row { y < coding.now.plane.now.height }
    requires room_length { length room.old ≡ 2 * coding.now.plane.now.width }
    requires blank { AreBlank (greatest_of coding.now.window) coding.now.plane.now.width words.old
        present.old }
    ensures { let c = coding.now in HoldsEach (greatest_of c.window) c.plane.now.width
        (λ x. smoothed_code_at c.plane.now c.window x y) words.new present.new }
{
    let (plane, plain, window) = (coding.plane, coding.plain, coding.window);
    // Known from here on: what the plane keeps, and the window's range.
    let _ = plane.size();
    let _ = &window.width;
    let (middles, bits) = room.split_at_mut(plain.width);
    row_middles(plane, plain, y, middles);
    inner_words(plain, window, y, middles, bits, words);
    inner_marks(plain, window, y, present);
    complete(plane, window, y, middles, words, present);
}
