use sgm_base::{
    DispMap, Image, MAX_CALIB_BYTES, MAX_COST, MAX_COUNT, MAX_DISPARITY, MAX_FIRST, MAX_GRID_LINES,
    MAX_IMAGE_BYTES, MAX_PATH_VALUE, MAX_PEAK, MAX_PENALTY, MAX_REGIONS, MAX_SIDE, MAX_STRIPS,
    MAX_SUM, MAX_VOLUME, MAX_WINDOW_HEIGHT, MAX_WINDOW_WIDTH, MAX_WORKERS, MIN_FIRST,
    MIN_WINDOW_SIDE, Plane, Size, Span, round_div,
};
use sgm_refine::LINK_DISTANCE;
use std::alloc::Global;
use std::test::Fail;

fn size(width: u32, height: u32) -> Result<Size, Fail> {
    Ok(Size::make(width, height).ok_or("a size")?)
}

#[test]
fn sizes_are_from_1_to_4096(rt: HostRuntime) -> Result<(), Fail> {
    for (width, height, is_made) in &[
        (1, 1, true),
        (4096, 4096, true),
        (0, 1, false),
        (1, 0, false),
        (4097, 1, false),
        (1, 4097, false),
        (u32::MAX, u32::MAX, false),
    ] {
        assert!(rt; Size::make(*width, *height).is_some() == *is_made);
    }
    assert!(rt; size(640, 480)?.pixels() == 307_200);
    Ok(())
}

#[test]
fn spans_keep_their_ranges(rt: HostRuntime) {
    for (first, count, is_made) in &[
        (-1024, 1, true),
        (1024, 256, true),
        (-1025, 1, false),
        (1025, 1, false),
        (0, 0, false),
        (0, 257, false),
    ] {
        assert!(rt; Span::make(*first, *count).is_some() == *is_made);
    }
}

/// Whether there is an image of two pixels with this maxval and these samples.
fn is_image(alloc: Global, maxval: u16, samples: &[u16]) -> Result<bool, Fail> {
    let image = Image::make(size(2, 1)?, maxval, samples.to_vec(alloc)?);
    Ok(image.is_some())
}

#[test]
fn images_keep_their_maxval(rt: HostRuntime) -> Result<(), Fail> {
    assert!(rt; is_image(rt.alloc(), 1, &[0, 1])?);
    assert!(rt; !is_image(rt.alloc(), 1, &[0, 2])?);
    assert!(rt; !is_image(rt.alloc(), 255, &[0])?);
    Ok(())
}

/// Whether a blank plane of two columns and three rows has entries in its middle row alone, once
/// that is written.
fn plane_is_written(plane: &mut Plane) -> bool {
    if plane.size().height != 3 {
        return false;
    }
    plane.row_mut(1).fill(Some(9));
    plane.entries() == [None, None, Some(9), Some(9), None, None].as_slice()
}

/// Whether a blank map of two columns and three rows has entries in its last row alone, once that
/// is written.
fn map_is_written(map: &mut DispMap) -> bool {
    if map.size().height != 3 {
        return false;
    }
    map.row_mut(2).fill(Some(16));
    map.entries() == [None, None, None, None, Some(16), Some(16)].as_slice()
}

// No clause says what a plane holds once a row of it was written: that row alone is another.
#[test]
fn a_row_that_is_written(rt: HostRuntime) -> Result<(), Fail> {
    let mut plane = Plane::blank(rt.alloc(), size(2, 3)?)?;
    assert!(rt; plane_is_written(&mut plane));
    let mut map = DispMap::blank(rt.alloc(), size(2, 3)?)?;
    assert!(rt; map_is_written(&mut map));
    Ok(())
}

fn is_shareable<T: Send + Sync>() -> bool {
    true
}

#[test]
fn threads_may_share_images_and_planes(rt: HostRuntime) {
    assert!(rt; is_shareable::<Image>());
    assert!(rt; is_shareable::<Plane>());
    assert!(rt; is_shareable::<DispMap>());
}

const LARGE: i128 = 1 << 120;

/// The rounded quotient, where both numbers are in range.
fn rounded(a: i128, b: i128) -> Option<i128> {
    if 0 < b && b <= LARGE && -LARGE <= a && a <= LARGE {
        Some(round_div(a, b))
    } else {
        None
    }
}

/// What is divided, by what, and the quotient.
const QUOTIENTS: [(i128, i128, i128); 9] = [
    (7, 2, 4),
    (-7, 2, -3),
    (5, 10, 1),
    (-5, 10, 0),
    (-6, 10, -1),
    (4, 10, 0),
    (0, 1, 0),
    (LARGE, 1, LARGE),
    (-LARGE, LARGE, -1),
];

#[test]
fn quotients_are_rounded_halves_upwards(rt: HostRuntime) {
    for (a, b, quotient) in &QUOTIENTS {
        assert!(rt; rounded(*a, *b) == Some(*quotient));
    }
}

// Contracts cite the limits by name, so that no clause says their values.
#[test]
fn limits_as_numbers(rt: HostRuntime) {
    assert!(rt; [MAX_SIDE, MAX_COUNT, MAX_STRIPS, MAX_WORKERS] == [4096, 256, 64, 16]);
    assert!(rt; [MIN_WINDOW_SIDE, MAX_WINDOW_WIDTH, MAX_WINDOW_HEIGHT] == [3, 9, 7]);
    assert!(rt; (MIN_FIRST, MAX_FIRST) == (-1024, 1024));
    assert!(rt; (MAX_COST, MAX_GRID_LINES, MAX_VOLUME) == (62, 4096, 268_435_456));
    assert!(rt;
        [MAX_PENALTY, MAX_PATH_VALUE, MAX_SUM, MAX_DISPARITY] == [4000, 4062, 32_496, 4080]
    );
    assert!(rt; [MAX_REGIONS, MAX_IMAGE_BYTES, MAX_CALIB_BYTES] == [1000, 67_108_864, 16_777_216]);
    assert!(rt; (LINK_DISTANCE, MAX_PEAK) == (16, 16_777_216));
}
