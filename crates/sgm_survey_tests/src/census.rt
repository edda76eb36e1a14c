//! Codes and costs of small planes. Stored cases of `sgm_cases` have windows of all sides, and
//! disparities beyond the row.

ghost use Rattle.std.specs.Prelude.{◌≡◌, ◌*◌, ◌<◌, ◌≤◌, length, IsTrue};

use sgm_base::{Plane, Size, Span};
use sgm_census::{CodePlane, CostRule, Window, codes, codes_by, cost_row};
use std::alloc::{AllocError, Global};
use std::test::Fail;
use std::thread::Threads;

// Three equal rows each.
const LEFT: [u16; 15] = [90, 10, 50, 20, 40, 90, 10, 50, 20, 40, 90, 10, 50, 20, 40];

const RIGHT: [u16; 15] = [10, 50, 20, 40, 30, 10, 50, 20, 40, 30, 10, 50, 20, 40, 30];

/// A size and a window with these sides.
fn sides_of(size: (u32, u32), window: (u32, u32)) -> Result<(Size, Window), Fail> {
    let size = Size::make(size.0, size.1).ok_or("size")?;
    Ok((size, Window::make(window.0, window.1).ok_or("window")?))
}

/// The codes of a plane with these entries, row by row.
fn codes_of_entries(
    alloc: Global,
    sides: (u32, u32),
    entries: Vec<Option<u16>>,
    window: (u32, u32),
) -> Result<CodePlane, Fail> {
    let (size, window) = sides_of(sides, window)?;
    let plane = Plane::make(size, entries).ok_or("entries")?;
    Ok(codes(alloc, &plane, window, CostRule::Plain)?)
}

/// Entries with these values, none of them void.
fn entries_of(alloc: Global, values: &[u16]) -> Result<Vec<Option<u16>>, AllocError> {
    let mut entries = Vec::new(alloc);
    for value in values {
        entries.push(Some(*value))?;
    }
    Ok(entries)
}

/// The codes of a plane with these values, row by row, none of them void.
fn codes_of(
    alloc: Global,
    sides: (u32, u32),
    values: &[u16],
    window: (u32, u32),
) -> Result<CodePlane, Fail> {
    let entries = entries_of(alloc, values)?;
    codes_of_entries(alloc, sides, entries, window)
}

/// The codes of a plane of 5 x 3 with these values and a window of 3 x 3, made in at most so many
/// threads.
fn shared_codes<R: Threads + Sync>(
    rt: &R,
    alloc: Global,
    values: &[u16],
    threads: usize,
) -> Result<CodePlane, Fail> {
    let (size, window) = sides_of((5, 3), (3, 3))?;
    let entries = entries_of(alloc, values)?;
    let plane = Plane::make(size, entries).ok_or("entries")?;
    let rule = CostRule::Plain;
    Ok(codes_by(rt, alloc, &plane, window, rule, threads)?)
}

/// Whether two planes have the same sides and the same window, and the row `y`.
fn are_alike(one: &CodePlane, other: &CodePlane, y: u32) -> bool
    ensures width { IsTrue result → one.now.width ≡ other.now.width }
    ensures height { IsTrue result → one.now.height ≡ other.now.height }
    ensures window { IsTrue result → one.now.window ≡ other.now.window }
    ensures row { IsTrue result → y < one.now.height }
{
    one.size() == other.size() && one.window() == other.window() && y < one.size().height
}

/// Whether the row `y` of two planes has these costs, at most ten, with so many disparities from
/// `first` on.
fn have_costs(
    left: &CodePlane,
    right: &CodePlane,
    (first, count): (i32, u32),
    y: u32,
    want: &[u8],
) -> bool {
    let Some(span) = Span::make(first, count) else {
        return false;
    };
    let cells = left.size().width as usize * span.count as usize;
    if !are_alike(left, right, y) || cells > 10 {
        return false;
    }
    let mut room = [99; 10];
    let costs = &mut room[..cells];
    cost_row(left, right, span, y, costs);
    &*costs == want
}

/// Whether the codes of two planes differ, pixel by pixel of the row `y`, in so many places, or in
/// as many as a code has where one has none.
fn differ_by(one: &CodePlane, other: &CodePlane, y: u32, want: &[u8]) -> bool {
    have_costs(one, other, (0, 1), y, want)
}

#[test]
fn windows_have_these_sides_alone(rt: HostRuntime) {
    for width in 0..12 {
        for height in 0..12 {
            let allowed = [3, 5, 7, 9].contains(&width) && [3, 5, 7].contains(&height);
            assert!(rt; Window::make(width, height).is_some() == allowed);
        }
    }
}

/// Whether the codes in the row 1 of two planes, with a window as large as they are, differ in so
/// many places.
fn planes_differ_by(
    alloc: Global,
    sides: (u32, u32),
    values: &[u16],
    others: &[u16],
    want: &[u8],
) -> Result<bool, Fail> {
    let plane = codes_of(alloc, sides, values, sides)?;
    let other = codes_of(alloc, sides, others, sides)?;
    Ok(differ_by(&plane, &other, 1, want))
}

#[test]
fn code_of_a_centre_and_eight_neighbours(rt: HostRuntime) -> Result<(), Fail> {
    // The neighbours above and at the lower left are less than the centre.
    let values = [5, 4, 6, 5, 5, 9, 1, 5, 5];
    for (others, want) in &[
        ([7, 0, 7, 7, 7, 7, 0, 7, 7], 0),
        ([7, 0, 7, 7, 7, 7, 7, 7, 7], 1),
        ([7; 9], 2),
        ([1, 5, 1, 1, 5, 1, 9, 1, 1], 8),
    ] {
        let want = [8, *want, 8];
        assert!(rt; planes_differ_by(rt.alloc(), (3, 3), &values, others, &want)?);
    }
    Ok(())
}

/// The codes of both images of the pair.
fn pair(alloc: Global) -> Result<(CodePlane, CodePlane), Fail> {
    let left = codes_of(alloc, (5, 3), &LEFT, (3, 3))?;
    Ok((left, codes_of(alloc, (5, 3), &RIGHT, (3, 3))?))
}

/// Whether the row `y` of the pair has these costs, with two disparities from `first` on.
fn pair_has_costs(alloc: Global, first: i32, y: u32, want: &[u8; 10]) -> Result<bool, Fail> {
    let (left, right) = pair(alloc)?;
    Ok(have_costs(&left, &right, (first, 2), y, want))
}

#[test]
fn costs_of_a_pair(rt: HostRuntime) -> Result<(), Fail> {
    for (y, want) in &[
        (0, [8, 8, 8, 8, 8, 8, 8, 8, 8, 8]),
        (1, [8, 8, 6, 8, 6, 0, 6, 0, 8, 8]),
        (2, [8, 8, 8, 8, 8, 8, 8, 8, 8, 8]),
    ] {
        assert!(rt; pair_has_costs(rt.alloc(), 0, *y, want)?);
    }
    Ok(())
}

#[test]
fn threads_that_share_the_rows_change_no_code(rt: HostRuntime) -> Result<(), Fail> {
    for threads in 0..8 {
        let left = shared_codes(&rt, rt.alloc(), &LEFT, threads)?;
        let right = shared_codes(&rt, rt.alloc(), &RIGHT, threads)?;
        let want = [8, 8, 6, 8, 6, 0, 6, 0, 8, 8];
        assert!(rt; have_costs(&left, &right, (0, 2), 1, &want));
    }
    Ok(())
}

#[test]
fn costs_of_negative_disparities(rt: HostRuntime) -> Result<(), Fail> {
    // The same pair the other way round, with the disparities -1 and 0.
    let (right, left) = pair(rt.alloc())?;
    assert!(rt; have_costs(&left, &right, (-1, 2), 1, &[8, 8, 0, 6, 0, 6, 8, 6, 8, 8]));
    Ok(())
}

/// Whether the codes of a plane of equal values with these voids are there where the differences
/// from themselves are 0.
fn voids_give(alloc: Global, entries: &[Option<u16>; 15], want: &[u8; 5]) -> Result<bool, Fail> {
    let plane = codes_of_entries(alloc, (5, 3), entries.to_vec(alloc)?, (3, 3))?;
    Ok(differ_by(&plane, &plane, 1, want))
}

#[test]
fn void_pixels_have_no_code(rt: HostRuntime) -> Result<(), Fail> {
    let mut entries = [Some(7); 15];
    assert!(rt; voids_give(rt.alloc(), &entries, &[8, 0, 0, 0, 8])?);
    // In the window of (1, 1) alone.
    entries[0] = None;
    assert!(rt; voids_give(rt.alloc(), &entries, &[8, 8, 0, 0, 8])?);
    // A void centre, in the windows of all three.
    entries[0] = Some(7);
    entries[7] = None;
    assert!(rt; voids_give(rt.alloc(), &entries, &[8; 5])?);
    Ok(())
}

/// The smoothed codes of five columns and three rows, with a window of 3 x 3.
fn smoothed_codes(alloc: Global, entries: &[Option<u16>; 15]) -> Result<CodePlane, Fail> {
    let (size, window) = sides_of((5, 3), (3, 3))?;
    let plane = Plane::make(size, entries.to_vec(alloc)?).ok_or("entries")?;
    Ok(codes(alloc, &plane, window, CostRule::Smoothed)?)
}

/// Whether the row `y` of these planes has these smoothed costs, with the disparities 0 and 1.
fn smoothed_are(
    alloc: Global,
    left: &[Option<u16>; 15],
    right: &[Option<u16>; 15],
    y: u32,
    want: &[u8; 10],
) -> Result<bool, Fail> {
    let left = smoothed_codes(alloc, left)?;
    let right = smoothed_codes(alloc, right)?;
    Ok(have_costs(&left, &right, (0, 2), y, want))
}

#[test]
fn smoothed_costs_of_a_pair_with_a_void_column(rt: HostRuntime) -> Result<(), Fail> {
    let mut left = [0, 90, 10, 50, 20, 0, 15, 70, 30, 60, 0, 80, 35, 55, 45].map(Some);
    for at in [0, 5, 10] {
        left[at] = None;
    }
    let right = [12, 52, 22, 42, 30, 68, 33, 58, 27, 40, 37, 54, 47, 63, 20].map(Some);
    for (y, want) in &[
        (0, [3, 3, 2, 4, 1, 6, 1, 5, 1, 3]),
        (1, [2, 4, 2, 5, 2, 5, 2, 5, 2, 5]),
        (2, [3, 2, 2, 3, 1, 5, 1, 6, 1, 4]),
    ] {
        assert!(rt; smoothed_are(rt.alloc(), &left, &right, *y, want)?);
    }
    Ok(())
}
