ghost use Rattle.std.specs.Prelude.{◌≡◌, ◌^◌, ◌<◌, pos, ◌*ℤ◌, ◌≤ℤ◌, IfSome};
ghost use Rattle.sgm_base.specs.Rounding.{rounded};
ghost use Rattle.sgm_base.specs.declared.limits.TheConstants.{MAX_SIDE};
ghost use Rattle.sgm_height.specs.Camera.{IsCamera, point_of, point_with};
ghost use Rattle.sgm_base.specs.Ranges.{Within};

use sgm_base::Point;

/// A pair of rectified cameras that look down. Focal length, centre and offset are in 1/256 of a
/// pixel, lengths in micrometres.
#[derive(Clone, Copy, Debug, PartialEq, Eq)]
pub struct Camera {
    /// The focal length, from 1 to 16777216.
    pub focal: i64,
    /// The distance between the two cameras, from 1 to 2000000000.
    pub baseline: i64,
    /// The column of the centre of the base image, within 16777216 of 0.
    pub cx: i64,
    /// The row of the centre of the base image, within 16777216 of 0.
    pub cy: i64,
    /// What is added to each disparity, within 16777216 of 0.
    pub doffs: i64,
    /// The height of the cameras over the datum, from 0 to 2000000000.
    pub mount: i64,
    /// The least depth of a point, from 1 to 2000000000.
    pub near: i64,
    /// The greatest depth of a point, from `near` to 2000000000.
    pub far: i64,
}

/// The point that the pixel (`x`, `y`) shows at a disparity of `disparity16` sixteenths of a pixel,
/// by similar triangles, each quotient rounded to the nearest micrometre. None exactly where the
/// disparity with the camera's offset is not above 0, or the depth is outside `near` to `far`.
/// Takes no memory.
pub fn point(camera: &Camera, x: u32, y: u32, disparity16: i32) -> Option<Point>
    requires camera { IsCamera camera.now }
    requires x_in { x < MAX_SIDE }
    requires y_in { y < MAX_SIDE }
    requires disparity { Within 32768 disparity16 }
    ensures exact { result ≡ point_of camera.now x y disparity16 }
    ensures height { IfSome result (λ p. Within 2000000000 p.h) }
    ensures east { IfSome result (λ p. Within (2 ^ 57) p.x) }
    ensures north { IfSome result (λ p. Within (2 ^ 57) p.y) }
{
    point_at(camera, x, y, 16 * disparity16 as i64 + camera.doffs)
}

/// The point of a pixel whose disparity, with the camera's offset, is `shift` in 1/256 of a pixel.
fn point_at(camera: &Camera, x: u32, y: u32, shift: i64) -> Option<Point>
    requires camera { IsCamera camera.now }
    requires x_in { x < MAX_SIDE }
    requires y_in { y < MAX_SIDE }
    requires shift { Within (2 ^ 25) shift }
    ensures exact { result ≡ point_with camera.now x y shift }
    ensures height { IfSome result (λ p. Within 2000000000 p.h) }
    ensures east { IfSome result (λ p. Within (2 ^ 57) p.x) }
    ensures north { IfSome result (λ p. Within (2 ^ 57) p.y) }
{
    if shift <= 0 {
        return None;
    }
    let depth = scaled(camera.focal, camera.baseline, shift);
    if depth < camera.near {
        return None;
    }
    if depth > camera.far {
        return None;
    }
    let east = scaled(256 * x as i64 - camera.cx, camera.baseline, shift);
    let north = scaled(camera.cy - 256 * y as i64, camera.baseline, shift);
    Some(Point {
        x: east,
        y: north,
        h: camera.mount - depth,
    })
}

/// `offset * baseline / shift`, rounded.
fn scaled(offset: i64, baseline: i64, shift: i64) -> i64
    requires offset { Within (2 ^ 25) offset }
    requires baseline { (pos 1 ≤ℤ baseline) × (baseline ≤ℤ pos 2000000000) }
    requires shift { (pos 1 ≤ℤ shift) × (shift ≤ℤ pos (2 ^ 25)) }
    ensures exact { result ≡ rounded (offset *ℤ baseline) shift }
    ensures near { Within (2 ^ 57) result }
{
    // What is divided stays below 2^58. A division of 128 bits takes several times as long.
    (2 * (offset * baseline) + shift).div_euclid(2 * shift)
}
