ghost use Rattle.std.specs.Prelude.{◌≡◌, IfOk};

use sgm_base::Span;
use sgm_select::{base_row, match_row};
use std::test::Fail;

/// The sums of two rows of a worked pair: five columns, two indices each.
const INNER: [u16; 10] = [64, 65, 49, 64, 49, 1, 49, 0, 65, 64];

const OUTER: [u16; 10] = [64, 65, 65, 65, 66, 65, 66, 64, 65, 64];

pub(crate) fn span_of(first: i32, count: u32) -> Result<Span, Fail>
    ensures { IfOk result (λ s. s.count ≡ count) }
{
    Ok(Span::make(first, count).ok_or("span")?)
}

#[test]
fn ties_go_to_the_least_index(rt: HostRuntime) {
    let mut base = [9];
    base_row(&[7, 3, 3, 9], 4, &mut base);
    assert!(rt; base == [1]);
}

#[test]
fn ties_on_the_right_go_to_the_least_index(rt: HostRuntime) -> Result<(), Fail> {
    // A column of one row: its own pixel alone, at the disparity 0.
    let mut matched = [None];
    match_row(&[7, 3, 3, 9], span_of(-2, 4)?, &mut matched);
    assert!(rt; matched == [Some(2)]);
    // The first of two columns: itself at index 0 and the second at index 1, with equal sums.
    let mut both = [None; 2];
    match_row(&[9, 5, 5, 9], span_of(0, 2)?, &mut both);
    assert!(rt; both == [Some(0), Some(0)]);
    Ok(())
}

/// The index of each of five columns with two indices each.
fn base_of(sums: &[u16; 10]) -> [u16; 5] {
    let mut base = [9; 5];
    base_row(sums, 2, &mut base);
    base
}

/// The index of each column on the right, with two disparities from `first` on.
fn matched_of(sums: &[u16; 10], first: i32) -> Result<[Option<u16>; 5], Fail> {
    let mut matched = [Some(9); 5];
    match_row(sums, span_of(first, 2)?, &mut matched);
    Ok(matched)
}

#[test]
fn indices_of_a_pair(rt: HostRuntime) -> Result<(), Fail> {
    assert!(rt; base_of(&INNER) == [0, 0, 1, 1, 1]);
    assert!(rt; base_of(&OUTER) == [0, 0, 1, 1, 1]);
    assert!(rt; matched_of(&INNER, 0)? == [Some(0), Some(1), Some(1), Some(0), Some(0)]);
    assert!(rt; matched_of(&OUTER, 0)? == [Some(0), Some(0), Some(1), Some(1), Some(0)]);
    // Index 0 gives the column on the left, index 1 the same column.
    assert!(rt; matched_of(&INNER, -1)? == [Some(1), Some(0), Some(1), Some(1), Some(0)]);
    // The last column with index 1 alone comes back into the row.
    assert!(rt; matched_of(&INNER, -5)? == [None, None, None, None, Some(1)]);
    Ok(())
}
