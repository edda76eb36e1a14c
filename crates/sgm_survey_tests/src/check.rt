ghost use Rattle.std.specs.Prelude.{◌≡◌};

use crate::select::span_of;
use sgm_base::Span;
use sgm_select::{base_row, check_row, sixteenths};
use std::test::Fail;

#[test]
fn the_vertex_lies_on_the_side_of_the_lesser_neighbour(rt: HostRuntime) {
    assert!(rt; sixteenths(7, 3, 3) == 8);
    assert!(rt; sixteenths(9, 3, 5) == 4);
    // -73 / 14, downwards
    assert!(rt; sixteenths(4, 3, 9) == -6);
    assert!(rt; sixteenths(20, 3, 18) == 1);
    assert!(rt; sixteenths(18, 3, 20) == 0);
    // The greatest and the least sums that a pixel can have, and those of the type.
    assert!(rt; sixteenths(1, 0, 32_496) == -8);
    assert!(rt; sixteenths(65_535, 0, 0) == 8);
    assert!(rt; sixteenths(65_535, 0, 65_535) == 0);
}

/// Six columns of five indices each, of which the last has the index 3.
const SUMS: [u16; 30] = [
    3, 9, 9, 9, 9, 3, 9, 9, 9, 9, 3, 9, 9, 9, 9, 3, 9, 9, 9, 9, 3, 9, 9, 9, 9, 9, 9, 9, 3, 5,
];

/// The disparity of the last of these columns, where the right column 2 has this index.
fn checked_with(
    matched: Option<u16>,
    left: Option<u16>,
    right: Option<u16>,
) -> Result<Option<u16>, Fail> {
    let span = span_of(0, 5)?;
    let mut base = [9; 6];
    let mut into = [Some(9); 6];
    base_row(&SUMS, span.count as usize, &mut base);
    check_row(
        &SUMS,
        &base,
        &[None, None, matched, None, None, None],
        &[Some(1), Some(1), Some(1), Some(1), Some(1), left],
        &[Some(1), Some(1), right, Some(1), Some(1), Some(1)],
        span,
        &mut into,
    );
    Ok(into[5])
}

#[test]
fn indices_may_differ_by_one(rt: HostRuntime) -> Result<(), Fail> {
    // In sixteenths 52 lies further than 16 from the index 2.
    for (matched, want) in &[
        (0, None),
        (1, None),
        (2, Some(52)),
        (3, Some(52)),
        (4, Some(52)),
        (5, None),
        (65535, None),
    ] {
        assert!(rt; checked_with(Some(*matched), Some(1), Some(1))? == *want);
    }
    Ok(())
}

#[test]
fn voids_are_not_checked(rt: HostRuntime) -> Result<(), Fail> {
    for (matched, left, right, want) in &[
        (Some(3), Some(0), Some(0), Some(52)),
        (Some(3), None, Some(0), None),
        (Some(3), Some(0), None, None),
        (None, Some(0), Some(0), None),
    ] {
        assert!(rt; checked_with(*matched, *left, *right)? == *want);
    }
    Ok(())
}
