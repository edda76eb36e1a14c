//! Path values of worked rows. The table is printed by tests/least_energies.py at the top of the
//! repository, which tries every sequence along whole rays; certificates of rays in all directions
//! are stored cases of `sgm_cases`.

ghost use Rattle.std.specs.Prelude.{◌≡◌, ◌+◌, ◌/◌, ◌%◌, ◌^◌, ◌<◌, ◌≤◌, length, All, IfSome, IsTrue};
ghost use Rattle.std.specs.Prelude.{false};
ghost use Rattle.sgm_energy.specs.Dirs.{is_level};

use sgm_base::{MAX_COST, MAX_COUNT, MAX_PATH_VALUE};
use sgm_energy::{Dir, Pen};
use sgm_path::{RowPass, begin_row, level_sums, pass_row, run_row, step_row};

type Row = (
    (u16, u16),
    usize,
    &'static [u8],
    &'static [u16],
    &'static [u16],
);

const ROWS: [Row; 4] = [
    (
        (1, 3),
        2,
        &[0, 5, 5, 0, 0, 5],
        &[0, 5, 5, 1, 1, 5],
        &[1, 5, 5, 1, 0, 5],
    ),
    ((7, 9), 1, &[4, 62, 0], &[4, 62, 0], &[4, 62, 0]),
    (
        (1, 4),
        3,
        &[3, 0, 8, 7, 7, 2, 0, 5, 5, 6, 1, 9],
        &[3, 0, 8, 8, 7, 3, 4, 6, 5, 6, 2, 10],
        &[4, 1, 8, 7, 8, 6, 1, 5, 6, 6, 1, 9],
    ),
    (
        (4000, 4000),
        2,
        &[0, 62, 0, 62, 0, 62, 0, 62, 0, 62],
        &[0, 62, 0, 124, 0, 186, 0, 248, 0, 310],
        &[0, 310, 0, 248, 0, 186, 0, 124, 0, 62],
    ),
];

/// Whether a row of at most 12 costs has these path values in a direction that stays in it.
fn runs_to(
    dir: Dir,
    pen: Pen,
    costs: &[u8],
    guide: &[Option<u8>],
    count: usize,
    want: &[u16],
) -> bool
    requires level { IsTrue (is_level dir) }
    requires room { length costs.now ≤ 12 }
    requires count_range { (1 ≤ count) × (count ≤ MAX_COUNT) }
    requires guide_length { length guide.now ≡ length costs.now / count }
    requires whole { length costs.now % count ≡ 0 }
    requires costs { All (λ c. c ≤ MAX_COST) costs.now }
{
    let mut room = [0; 12];
    let values = &mut room[..costs.len()];
    run_row(dir, pen, costs, guide, count, values);
    &*values == want
}

/// Whether these are the path values of a row of at most 12 costs to the right and to the left, by
/// their sums.
fn adds_up(
    pen: Pen,
    costs: &[u8],
    guide: &[Option<u8>],
    count: usize,
    right: &[u16],
    left: &[u16],
) -> bool
    requires room { length costs.now ≤ 12 }
    requires count_range { (1 ≤ count) × (count ≤ MAX_COUNT) }
    requires guide_length { length guide.now ≡ length costs.now / count }
    requires whole { length costs.now % count ≡ 0 }
    requires costs { All (λ c. c ≤ MAX_COST) costs.now }
{
    let mut spare = [0; 12];
    let mut room = [0; 12];
    let sums = &mut room[..costs.len()];
    level_sums(pen, costs, guide, count, &mut spare[..costs.len()], sums);
    are_sums(sums, right, left)
}

/// Whether the first numbers are those of the two others, added place by place.
fn are_sums(sums: &[u16], first: &[u16], second: &[u16]) -> bool {
    if first.len() != sums.len() || second.len() != sums.len() {
        return false;
    }
    for k in 0..sums.len() {
        if u32::from(sums[k]) != u32::from(first[k]) + u32::from(second[k]) {
            return false;
        }
    }
    true
}

/// Whether a row of at most 12 values is as wanted, to the right, to the left, and both together.
fn is_as_wanted(pen: Pen, count: usize, costs: &[u8], right: &[u16], left: &[u16]) -> bool
    requires room { length costs.now ≤ 12 }
    requires count_range { (1 ≤ count) × (count ≤ MAX_COUNT) }
    requires whole { length costs.now % count ≡ 0 }
    requires costs { All (λ c. c ≤ MAX_COST) costs.now }
{
    let guide = &[None; 12][..costs.len() / count];
    runs_to(Dir::Right, pen, costs, guide, count, right)
        && runs_to(Dir::Left, pen, costs, guide, count, left)
        && adds_up(pen, costs, guide, count, right, left)
}

/// Whether a row of the table is as wanted. None of its rows is too long or has costs too large.
fn is_right(row: &Row) -> bool {
    let ((p1, p2), count, costs, right, left) = *row;
    let Some(pen) = Pen::make(p1, p2) else {
        return false;
    };
    costs.len() <= 12
        && 1 <= count
        && count <= 3
        && costs.len() % count == 0
        && costs.iter().all(|c| *c <= MAX_COST)
        && is_as_wanted(pen, count, costs, right, left)
}

#[test]
fn level_rows_have_least_energies(rt: HostRuntime) {
    for row in &ROWS {
        assert!(rt; is_right(row));
    }
}

#[test]
fn diagonal_begins_at_the_side(rt: HostRuntime) {
    // two pixels in two rows: pixel (0, 1) begins a ray, and pixel (1, 1) follows (0, 0)
    let pen = Pen::make(1, 3).expect(&rt, "in range");
    let mut top = [0u16; 4];
    step_row(
        Dir::DownRight,
        pen,
        &[0, 5, 9, 9],
        None,
        &[None; 2],
        &[],
        2,
        &mut top,
    );
    assert!(rt; top == [0, 5, 9, 9]);
    let mut bottom = [0u16; 4];
    step_row(
        Dir::DownRight,
        pen,
        &[7, 4, 5, 0],
        Some(&top),
        &[None; 2],
        &[None; 2],
        2,
        &mut bottom,
    );
    assert!(rt; bottom == [7, 4, 5, 1]);
}

const ROW: [u8; 6] = [0, 9, 9, 9, 9, 0];

/// Whether two pixels of a row with these grey values have these path values to the right.
fn to_the_right(pen: Pen, guide: [Option<u8>; 2], want: &[u16; 6]) -> bool {
    runs_to(Dir::Right, pen, &ROW, &guide, 3, want)
}

/// Whether two pixels of a row with these grey values have these path values to the left.
fn to_the_left(pen: Pen, guide: [Option<u8>; 2], want: &[u16; 6]) -> bool {
    runs_to(Dir::Left, pen, &ROW, &guide, 3, want)
}

#[test]
fn penalties_that_follow_a_row(rt: HostRuntime) {
    let guide = [Some(10), Some(13)];
    let fixed = Pen::make(1, 6).expect(&rt, "in range");
    assert!(rt; to_the_right(fixed, guide, &[0, 9, 9, 9, 10, 6]));
    let pen = Pen::adaptive(1, 6).expect(&rt, "in range");
    let (right, left) = ([0, 9, 9, 9, 10, 2], [2, 10, 9, 9, 9, 0]);
    assert!(rt; to_the_right(pen, guide, &right) && to_the_left(pen, guide, &left));
    assert!(rt; adds_up(pen, &ROW, &guide, 3, &right, &left));
    assert!(rt; to_the_left(pen, [Some(10), None], &[6, 10, 9, 9, 9, 0]));
}

const COSTS: [u8; 6] = [9, 9, 0, 9, 9, 0];

const BELOW: [u16; 6] = [0, 9, 9, 0, 9, 9];

#[test]
fn penalties_that_follow_two_rows(rt: HostRuntime) {
    // Upwards to the right: the column 1 comes from the column 0 of the row below, with the grey
    // value 10.
    let pen = Pen::adaptive(1, 6).expect(&rt, "in range");
    let (guide, guide_below) = ([Some(99), Some(13)], [Some(10), Some(14)]);
    let mut values = [0; 6];
    step_row(
        Dir::UpRight,
        pen,
        &COSTS,
        Some(&BELOW),
        &guide,
        &guide_below,
        3,
        &mut values,
    );
    assert!(rt; values == [9, 9, 0, 9, 10, 2]);
}

#[test]
fn added_penalties_that_follow_two_rows(rt: HostRuntime) {
    let pen = Pen::adaptive(1, 6).expect(&rt, "in range");
    let (guide, guide_below) = ([Some(12), Some(13)], [Some(10), None]);
    let row = RowPass::make(Dir::Up, pen, &COSTS, &guide, &guide_below, 3);
    let (mut values, mut spare, mut sums) = (BELOW, [0; 3], [5; 6]);
    pass_row(&row, &mut values, &mut spare, &mut sums);
    assert!(rt; values == [9, 10, 3, 9, 10, 6]);
    assert!(rt; are_sums(&sums, &[5; 6], &values));
}

#[test]
fn a_row_takes_the_place_of_the_one_before(rt: HostRuntime) {
    // Each column from the column beside it: the first and the last alone keep their costs.
    let pen = Pen::make(1, 3).expect(&rt, "in range");
    let guide = [None; 3];
    let (mut values, mut spare, mut sums) = ([9; 6], [0; 2], [0; 6]);
    let costs = [0, 5, 9, 9, 7, 0];
    let right = RowPass::make(Dir::DownRight, pen, &costs, &guide, &guide, 2);
    begin_row(&right, &mut values, &mut sums);
    assert!(rt; values == [0, 5, 9, 9, 7, 0]);
    pass_row(&right, &mut values, &mut spare, &mut sums);
    assert!(rt; values == [0, 5, 9, 10, 7, 0]);
    let left = RowPass::make(Dir::DownLeft, pen, &costs, &guide, &guide, 2);
    pass_row(&left, &mut values, &mut spare, &mut sums);
    assert!(rt; values == [0, 6, 10, 9, 7, 0]);
    assert!(rt; sums == [0, 16, 28, 28, 21, 0]);
}
