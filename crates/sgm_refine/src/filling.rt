//! Filling: a pixel without a disparity takes one of those that are met from it.

ghost use Rattle.std.specs.Prelude.{◌≡◌, ℕ, ◌+◌, ◌-◌, ◌*◌, ◌/◌, ◌^◌, ◌<◌, ◌≤◌, ◌++◌, ℤ, List};
ghost use Rattle.std.specs.Prelude.{length, slice_get, slice_index_or, None, Some, EachIndex, IfOk};
ghost use Rattle.std.specs.Prelude.{IfSome, option_and_then, true, false, ◌⊎◌};
ghost use Rattle.std.specs.List.{flat_map};
ghost use Rattle.std.specs.List.Sorted.{IsNonDecreasing, IsPermutation};
ghost use Rattle.std.specs.Option.{option_to_list};
ghost use Rattle.arrayvec.specs.ArrayVec.{array_vec_len};
ghost use Rattle.sgm_base.specs.Columns.{left_column};
ghost use Rattle.sgm_base.specs.Values.{Values, AtMost};
ghost use Rattle.sgm_energy.specs.Rays.{pixel_at};
ghost use Rattle.sgm_refine.specs.declared.met.TheConstants.{LEVEL, DOWNWARDS, UPWARDS};
ghost use Rattle.sgm_refine.specs.Filling.{AreIndices, entry_taken, filled, filled_value};
ghost use Rattle.sgm_refine.specs.Filling.{is_mismatched};
ghost use Rattle.sgm_refine.specs.Met.{HoldMetUpwards, HoldRows, IsMetRow, AreMarks, filled_at};

use crate::met::{carry_down, meet_level, meet_upwards, met_at};
use arrayvec::ArrayVec;
use sgm_base::{DispMap, Plane, Span};
use std::alloc::{AllocError, Global};

/// The values of a list, the least first.
fn sorted(values: &[Option<u16>; 8]) -> ArrayVec<u16, 8>
    ensures permutation { IsPermutation (flat_map option_to_list values.now) result.items }
    ensures ascending { IsNonDecreasing result.items }
{
    let mut found = ArrayVec::new();
    for value in values {
        if let Some(value) = value {
            found.push(*value);
        }
    }
    found.sort_unstable();
    found
}

/// The one of these values, the least first, with which a pixel is filled.
fn taken(values: &[u16], is_mismatched: bool) -> Option<u16>
    ensures { result ≡ slice_get values.now (entry_taken is_mismatched (length values.now)) }
{
    let last = values.len().saturating_sub(1);
    let entry = if is_mismatched { last / 2 } else { last.min(1) };
    values.get(entry).copied()
}

/// The column of the left row that a match gives to the column `q` of the right one, where it lies
/// in the row.
fn matched_column(value: Option<u16>, q: usize, span: Span, width: usize) -> Option<usize>
    requires column { q < width }
    requires wide { width < 2 ^ 61 }
    ensures value { result ≡ option_and_then (λ v. left_column width span.first q (v / 16)) value }
    ensures inside { IfSome result (λ x. x < width) }
{
    let index = value? / 16;
    let x = q as i64 + i64::from(span.first) + i64::from(index);
    if 0 <= x && x < width as i64 {
        Some(x as usize)
    } else {
        None
    }
}

/// Marks a column, where there is one.
fn mark(column: Option<usize>, marks: &mut [bool])
    requires inside { IfSome column (λ x. x < length marks.old) }
    ensures marked { (x : ℕ) → column ≡ Some x → slice_index_or marks.new x false ≡ true }
    ensures kept { (x : ℕ) → slice_index_or marks.old x false ≡ true
        → slice_index_or marks.new x false ≡ true }
    ensures alone { (x : ℕ) → slice_index_or marks.new x false ≡ true
        → (slice_index_or marks.old x false ≡ true) ⊎ (column ≡ Some x) }
{
    if let Some(x) = column {
        marks[x] = true;
    }
}

/// Takes all marks away.
fn clear(marks: &mut [bool])
    ensures { EachIndex marks.new (λ x. slice_index_or marks.new x false ≡ false) }
{
    for mark in marks.iter_mut() {
        *mark = false;
    }
}

/// Marks the columns of the row `y` that are mismatched.
fn mark_row(matched: &DispMap, y: u32, span: Span, into: &mut [bool])
    requires row { y < matched.now.height }
    requires into_length { length into.old ≡ matched.now.width }
    requires indices { AreIndices span.count matched.now.entries }
    ensures { AreMarks matched.now span.first span.count y into.new }
{
    let width = matched.size().width as usize;
    let values = matched.row(y);
    clear(into);
    for q in 0..width {
        mark(matched_column(values[q], q, span, width), into);
    }
}

/// What a map is filled from: the map, the right picture's matches in sixteenths, the left picture,
/// all of one size, and the span.
#[derive(Clone, Copy)]
struct Sources<'a> {
    map: &'a DispMap,
    matched: &'a DispMap,
    left: &'a Plane,
    span: Span,
    ghost matched_width: { matched.now.width ≡ map.now.width },
    ghost matched_height: { matched.now.height ≡ map.now.height },
    ghost left_width: { left.now.width ≡ map.now.width },
    ghost left_height: { left.now.height ≡ map.now.height },
}

/// What is met from the pixels of the row `y`: on the row itself, from above, and from below.
#[derive(Clone, Copy)]
struct MetRow<'a> {
    y: u32,
    level: &'a [Option<u16>],
    down: &'a [Option<u16>],
    up: &'a [Option<u16>],
}

/// The value of the pixel of the column `x` of a row, or that with which it is filled.
fn value_at(from: &Sources, met: &MetRow, x: usize, mismatched: bool) -> Option<u16>
    requires column { x < from.now.map.now.width }
    requires met { IsMetRow from.now.map.now met.now.y met.now.level.now met.now.down.now
        met.now.up.now }
    ensures { result
        ≡ filled_value from.now.map.now from.now.left.now mismatched (pixel_at x met.now.y) }
{
    let own = from.map.row(met.y)[x];
    if own.is_some() {
        return own;
    }
    match from.left.row(met.y)[x] {
        None => None,
        Some(_) => {
            let width = from.map.size().width as usize;
            let values = met_at(met.level, met.down, met.up, x, width);
            taken(sorted(&values).as_slice(), mismatched)
        }
    }
}

/// Writes the values of a row, filled.
fn fill_row(from: &Sources, met: &MetRow, marks: &[bool], into: &mut [Option<u16>])
    requires met { IsMetRow from.now.map.now met.now.y met.now.level.now met.now.down.now
        met.now.up.now }
    requires marks_length { length marks.now ≡ from.now.map.now.width }
    requires into_length { length into.old ≡ from.now.map.now.width }
    ensures { EachIndex into.new (λ x. slice_index_or into.new x None
        ≡ filled_value from.now.map.now from.now.left.now (slice_index_or marks.now x false)
        (pixel_at x met.now.y)) }
{
    for x in 0..into.len() {
        into[x] = value_at(from, met, x, marks[x]);
    }
}

/// Writes the values of a row, filled, to their place among those of the map. What `marks` holds
/// before does not matter.
fn fill_row_at(from: &Sources, met: &MetRow, marks: &mut [bool], into: &mut [Option<u16>])
    requires met { IsMetRow from.now.map.now met.now.y met.now.level.now met.now.down.now
        met.now.up.now }
    requires indices { AreIndices from.now.span.count from.now.matched.now.entries }
    requires marks_length { length marks.old ≡ from.now.map.now.width }
    requires into_length { length into.old ≡ from.now.map.now.width * from.now.map.now.height }
    ensures { let f =
        filled_at from.now.map.now from.now.matched.now from.now.left.now from.now.span.first
        from.now.span.count in
        HoldRows from.now.map.now.width f met.now.y into.old
        → HoldRows from.now.map.now.width f (met.now.y + 1) into.new }
{
    let width = from.map.size().width as usize;
    mark_row(from.matched, met.y, from.span, marks);
    let (_, rest) = into.split_at_mut(met.y as usize * width);
    let (here, _) = rest.split_at_mut(width);
    fill_row(from, met, marks, here);
}

/// Room for a row of marks, and for what is met from the pixels of a row: on the row itself, from
/// above, and from above the next row.
#[derive(Drop)]
struct Room {
    marks: Vec<bool>,
    level: Vec<Option<u16>>,
    down: Vec<Option<u16>>,
    next: Vec<Option<u16>>,
    ghost level_length: { length level.items ≡ 2 * length marks.items },
    ghost down_length: { length down.items ≡ 3 * length marks.items },
    ghost next_length: { length next.items ≡ 3 * length marks.items },
}

/// Room for rows of `width` pixels. Nothing is met from above a first row.
fn make_room(alloc: Global, width: usize) -> Result<Room, AllocError>
    requires wide { width ≤ 2 ^ 32 }
    ensures width { IfOk result (λ room. length room.marks.items ≡ width) }
    ensures none { IfOk result (λ room. EachIndex room.down.items
        (λ k. slice_index_or room.down.items k None ≡ None)) }
{
    let marks = vec![in alloc; false; width]?;
    let level = vec![in alloc; None; 2 * width]?;
    let down = vec![in alloc; None; 3 * width]?;
    let next = vec![in alloc; None; 3 * width]?;
    Ok(Room {
        marks,
        level,
        down,
        next,
    })
}

/// Writes the values of all rows, filled. `up` has what is met from below each row, the lowest
/// row's first. What the room holds before does not matter, but that nothing is met from above the
/// first row.
fn fill_rows(from: &Sources, up: &[Option<u16>], room: &mut Room, into: &mut [Option<u16>])
    requires up_length { length up.now ≡ 3 * from.now.map.now.height * from.now.map.now.width }
    requires up { HoldMetUpwards from.now.map.now UPWARDS (3 * from.now.map.now.height) up.now }
    requires indices { AreIndices from.now.span.count from.now.matched.now.entries }
    requires room_width { length room.old.marks.items ≡ from.now.map.now.width }
    requires into_length { length into.old ≡ from.now.map.now.width * from.now.map.now.height }
    requires down { EachIndex room.old.down.items
        (λ k. slice_index_or room.old.down.items k None ≡ None) }
    ensures { let f =
        filled_at from.now.map.now from.now.matched.now from.now.left.now from.now.span.first
        from.now.span.count in
        HoldRows from.now.map.now.width f from.now.map.now.height into.new }
{
    let size = from.map.size();
    let width = size.width as usize;
    for y in 0..size.height {
        meet_level(from.map, y, &mut room.level);
        let at = 3 * width * (size.height - 1 - y) as usize;
        let met = MetRow {
            y,
            level: &room.level,
            down: &room.down,
            up: &up[at..at + 3 * width],
        };
        fill_row_at(from, &met, &mut room.marks, into);
        carry_down(from.map, y, &room.down, &mut room.next);
        room.down.copy_from_slice(&room.next);
    }
}

/// The map, in which each pixel without a disparity has one of those met from it: of the values at
/// the first pixels that have one in the eight directions, the second least where the pixel is
/// occluded, or the only one, and the middle one, the lower of two, where it is mismatched.
/// Mismatched is a pixel that some index below the span's count gives a pixel of the right image
/// whose match in `matched` is that index. `matched` holds them in sixteenths. A pixel that is void
/// in `left`, and one from which no value is met, stays without. No filled value is used for
/// another one. The rule is of this project.
pub fn fill(
    alloc: Global,
    map: &DispMap,
    matched: &DispMap,
    left: &Plane,
    span: Span,
) -> Result<DispMap, AllocError>
    requires matched_width { matched.now.width ≡ map.now.width }
    requires matched_height { matched.now.height ≡ map.now.height }
    requires left_width { left.now.width ≡ map.now.width }
    requires left_height { left.now.height ≡ map.now.height }
    requires indices { AreIndices span.count matched.now.entries }
    ensures { IfOk result (λ m. m ≡ filled map.now matched.now left.now span.first span.count) }
{
    let size = map.size();
    let width = size.width as usize;
    let mut room = make_room(alloc, width)?;
    let mut up = vec![in alloc; None; 3 * size.height as usize * width]?;
    let mut entries = vec![in alloc; None; size.pixels()]?;
    meet_upwards(map, up.as_mut_slice());
    let from = Sources {
        map,
        matched,
        left,
        span,
    };
    fill_rows(&from, &up, &mut room, entries.as_mut_slice());
    let Some(map) = DispMap::make(size, entries) else {
        unreachable!()
    };
    Ok(map)
}
