ghost use Rattle.std.specs.Prelude.{◌≡◌, ◌^◌, ◌<◌, pos, IfSome};
ghost use Rattle.sgm_base.specs.Ranges.{Within};
ghost use Rattle.sgm_base.specs.declared.limits.TheConstants.{MAX_SIDE};
ghost use Rattle.sgm_height.specs.Station.{IsStation, framed, seen_from};

use crate::camera::{Camera, point};
use crate::pose::Pose;
use sgm_base::Point;

/// A pair of rectified cameras, and how it stands in the frame of the site where that is known.
/// Without a pose it looks down, and points count from the point of the datum below the left
/// camera.
#[derive(Clone, Copy, Debug, PartialEq, Eq)]
pub struct Station {
    pub camera: Camera,
    pub pose: Option<Pose>,
}

impl Station {
    /// A camera's point in the frame of the heights.
    fn framed(&self, point: Point) -> Option<Point>
        requires station { IsStation self.now }
        requires x { Within (2 ^ 57) point.x }
        requires y { Within (2 ^ 57) point.y }
        requires h { Within 2000000000 point.h }
        ensures exact { result ≡ framed self.now.pose point }
        ensures height { IfSome result (λ p. Within 2000000000 p.h) }
        ensures east { IfSome result (λ p. Within (2 ^ 60) p.x) }
        ensures north { IfSome result (λ p. Within (2 ^ 60) p.y) }
    {
        match &self.pose {
            None => Some(point),
            Some(pose) => pose.place(point),
        }
    }

    /// The point that the pixel (`x`, `y`) shows at a disparity of `disparity16` sixteenths of a
    /// pixel, in micrometres. None exactly where the camera has none, or its height in the frame of
    /// the site is further than 2000000000 from 0. Takes no memory.
    pub fn point(&self, x: u32, y: u32, disparity16: i32) -> Option<Point>
        requires station { IsStation self.now }
        requires x_in { x < MAX_SIDE }
        requires y_in { y < MAX_SIDE }
        requires disparity { Within 32768 disparity16 }
        ensures exact { result ≡ seen_from self.now x y disparity16 }
        ensures height { IfSome result (λ p. Within 2000000000 p.h) }
        ensures east { IfSome result (λ p. Within (2 ^ 60) p.x) }
        ensures north { IfSome result (λ p. Within (2 ^ 60) p.y) }
    {
        match point(&self.camera, x, y, disparity16) {
            None => None,
            Some(found) => self.framed(found),
        }
    }
}
