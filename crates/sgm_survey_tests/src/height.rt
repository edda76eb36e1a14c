//! Points worked out by hand. More are in the heights of the stored runs of `sgm_cases`.

use sgm_base::Point;
use sgm_height::{
    Camera, MAX_AXIS, MAX_BASELINE, MAX_DEPTH, MAX_FOCAL, MAX_MOUNT, MAX_OFFSET, MAX_SITE, point,
};

fn at(x: i64, y: i64, h: i64) -> Option<Point> {
    Some(Point { x, y, h })
}

/// 256000 * 100000 / 12800, and / 12928; a disparity of 0 shows no point.
#[test]
fn depths_by_hand(rt: HostRuntime) {
    let camera = Camera {
        focal: 256_000,
        baseline: 100_000,
        cx: 0,
        cy: 0,
        doffs: 0,
        mount: 0,
        near: 1,
        far: 2_000_000_000,
    };
    assert!(rt; point(&camera, 0, 0, 800) == at(0, 0, -2_000_000));
    assert!(rt; point(&camera, 0, 0, 808) == at(0, 0, -1_980_198));
    assert!(rt; point(&camera, 0, 0, 0) == None);
    assert!(rt; point(&camera, 0, 0, -800) == None);
}

/// A half goes upwards, on both sides of 0.
#[test]
fn halves_by_hand(rt: HostRuntime) {
    let camera = Camera {
        focal: 768,
        baseline: 1,
        cx: 512,
        cy: 512,
        doffs: 0,
        mount: 0,
        near: 1,
        far: 2_000_000_000,
    };
    assert!(rt; point(&camera, 5, 5, 32) == at(2, -1, -2), "3 halves");
    assert!(rt; point(&camera, 3, 3, 32) == at(1, 0, -2), "1 half");
    assert!(rt; point(&camera, 1, 1, 32) == at(0, 1, -2), "1 half below");
}

// Contracts cite the limits by name, so that no clause says their values.
#[test]
fn limits_as_numbers(rt: HostRuntime) {
    assert!(rt; [MAX_FOCAL, MAX_OFFSET, MAX_AXIS] == [16_777_216, 16_777_216, 1_073_741_824]);
    assert!(rt; [MAX_BASELINE, MAX_MOUNT, MAX_DEPTH, MAX_SITE] == [2_000_000_000; 4]);
}
