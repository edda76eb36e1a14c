ghost use Rattle.std.specs.Prelude.{◌≡◌, ◌^◌, ◌≤◌, ◌+◌, ◌*ℤ◌, pos, IfSome, IsTrue};
ghost use Rattle.sgm_base.specs.Ranges.{Within};
ghost use Rattle.sgm_base.specs.Rounding.{rounded};
ghost use Rattle.sgm_height.specs.Pose.{IsAxis, IsInRange, dot, dot_point, along, is_small};
ghost use Rattle.sgm_height.specs.Pose.{is_nearly_unit, are_nearly_square, is_nearly_rotation};
ghost use Rattle.sgm_height.specs.Pose.{axis_from, axes_of, moved, is_level, site_point};

use crate::limits::MAX_SITE;
use sgm_base::Point;

/// A whole axis, as the numbers of an axis count.
const UNIT: i64 = 1_073_741_824;

/// By how much a square of a length, or the product of two axes, is off at most: 2^45.
const MAX_SKEW: i64 = 35_184_372_088_832;

/// An axis of the site's frame, as it lies in the camera's: to the right, to the north and upwards,
/// in 1/2^30.
#[derive(Clone, Copy, Debug, PartialEq, Eq)]
pub struct Axis {
    pub x: i64,
    pub y: i64,
    pub h: i64,
}

/// The axes of the site's frame as they lie in the camera's.
#[derive(Clone, Copy, Debug, PartialEq, Eq)]
pub struct Axes {
    pub east: Axis,
    pub north: Axis,
    pub up: Axis,
}

/// How a camera stands in the frame of the site: how it is turned, and where the point below it
/// lies from which its own points count, in micrometres, each number within 2000000000 of 0.
#[derive(Clone, Copy, Debug, PartialEq, Eq)]
pub struct Pose {
    /// Nearly those of a rotation.
    pub axes: Axes,
    pub east: i64,
    pub north: i64,
    pub up: i64,
}

/// The product of two numbers of axes.
fn product(a: i64, b: i64) -> i64
    requires a { Within (2 ^ 30) a }
    requires b { Within (2 ^ 30) b }
    ensures exact { result ≡ a *ℤ b }
    ensures near { Within (2 ^ 60) result }
{
    a * b
}

/// The scalar product of two axes, in 1/2^60.
fn dot(a: Axis, b: Axis) -> i64
    requires a { IsAxis a }
    requires b { IsAxis b }
    ensures exact { result ≡ dot a b }
    ensures near { Within (2 ^ 62) result }
{
    product(a.x, b.x) + product(a.y, b.y) + product(a.h, b.h)
}

fn is_small(number: i64) -> bool
    ensures { result ≡ is_small number }
{
    -MAX_SKEW <= number && number <= MAX_SKEW
}

/// Whether the square of an axis's length is nearly 1.
fn is_nearly_unit(axis: Axis) -> bool
    requires { IsAxis axis }
    ensures { result ≡ is_nearly_unit axis }
{
    is_small(dot(axis, axis) - UNIT * UNIT)
}

/// Whether two axes are nearly at right angles.
fn are_nearly_square(a: Axis, b: Axis) -> bool
    requires a { IsAxis a }
    requires b { IsAxis b }
    ensures { result ≡ are_nearly_square a b }
{
    is_small(dot(a, b))
}

/// The axis that three numbers of a matrix are.
fn axis_from(matrix: &[i64; 9], first: usize) -> Axis
    requires { first ≤ 6 }
    ensures { result ≡ axis_from matrix.now first }
{
    Axis {
        x: matrix[first],
        y: matrix[first + 1],
        h: matrix[first + 2],
    }
}

impl Axes {
    /// The axes by the rows of a matrix from the top.
    pub fn from_rows(matrix: &[i64; 9]) -> Axes
        ensures { result ≡ axes_of matrix.now }
    {
        Axes {
            east: axis_from(matrix, 0),
            north: axis_from(matrix, 3),
            up: axis_from(matrix, 6),
        }
    }

    /// Whether they are nearly those of a rotation: the square of each length and the product of
    /// each two are off by at most 1/2^15, so lengths are kept within 46 in a million. Whether they
    /// mirror isn't asked.
    #[tactic(auto, unfolding(crate::specs::Pose::is_nearly_rotation))]
    pub fn is_nearly_rotation(&self) -> bool
        requires east { IsAxis self.now.east }
        requires north { IsAxis self.now.north }
        requires up { IsAxis self.now.up }
        ensures { result ≡ is_nearly_rotation self.now }
    {
        is_nearly_unit(self.east)
            && is_nearly_unit(self.north)
            && is_nearly_unit(self.up)
            && are_nearly_square(self.east, self.north)
            && are_nearly_square(self.east, self.up)
            && are_nearly_square(self.north, self.up)
    }
}

/// The product of a number of an axis and one of a point.
fn wide_product(a: i64, b: i64) -> i128
    requires a { Within (2 ^ 30) a }
    requires b { Within (2 ^ 57) b }
    ensures exact { result ≡ a *ℤ b }
    ensures near { Within (2 ^ 87) result }
{
    i128::from(a) * i128::from(b)
}

/// The scalar product of an axis and a point, in 1/2^30 of a micrometre.
fn dot_point(axis: Axis, point: Point) -> i128
    requires axis { IsAxis axis }
    requires x { Within (2 ^ 57) point.x }
    requires y { Within (2 ^ 57) point.y }
    requires h { Within (2 ^ 57) point.h }
    ensures exact { result ≡ dot_point axis point }
    ensures near { Within (2 ^ 89) result }
{
    wide_product(axis.x, point.x) + wide_product(axis.y, point.y) + wide_product(axis.h, point.h)
}

/// Whole micrometres, halves upwards. The divisor is a constant, so that no division is left of
/// it.
fn whole_micrometres(sum: i128) -> i64
    requires { Within (2 ^ 89) sum }
    ensures { result ≡ rounded sum (pos (2 ^ 30)) }
{
    (2 * sum + 1_073_741_824).div_euclid(2_147_483_648) as i64
}

/// How far along an axis a point lies, in micrometres, rounded, halves upwards.
fn along(axis: Axis, point: Point) -> i64
    requires axis { IsAxis axis }
    requires x { Within (2 ^ 57) point.x }
    requires y { Within (2 ^ 57) point.y }
    requires h { Within (2 ^ 57) point.h }
    ensures exact { result ≡ along axis point }
    ensures near { Within (2 ^ 59 + 1) result }
{
    whole_micrometres(dot_point(axis, point))
}

fn is_level(height: i64) -> bool
    ensures exact { result ≡ is_level height }
    ensures level { IsTrue result → Within 2000000000 height }
{
    -MAX_SITE <= height && height <= MAX_SITE
}

impl Pose {
    /// A camera's point, turned and moved.
    #[tactic(auto, unfolding(crate::specs::Pose::moved))]
    fn moved(&self, point: Point) -> Point
        requires pose { IsInRange self.now }
        requires x { Within (2 ^ 57) point.x }
        requires y { Within (2 ^ 57) point.y }
        requires h { Within (2 ^ 57) point.h }
        ensures exact { result ≡ moved self.now point }
        ensures east { Within (2 ^ 60) result.x }
        ensures north { Within (2 ^ 60) result.y }
        ensures up { Within (2 ^ 60) result.h }
    {
        Point {
            x: self.east + along(self.axes.east, point),
            y: self.north + along(self.axes.north, point),
            h: self.up + along(self.axes.up, point),
        }
    }

    /// A camera's point in the frame of the site: `x` to the east, `y` to the north and `h` upwards
    /// from the site's point, in micrometres, each sum of products rounded to the nearest
    /// micrometre, halves upwards. None where the height is further than 2000000000 from 0. Takes
    /// no memory.
    pub fn place(&self, point: Point) -> Option<Point>
        requires pose { IsInRange self.now }
        requires x { Within (2 ^ 57) point.x }
        requires y { Within (2 ^ 57) point.y }
        requires h { Within (2 ^ 57) point.h }
        ensures exact { result ≡ site_point self.now point }
        ensures height { IfSome result (λ p. Within 2000000000 p.h) }
        ensures east { IfSome result (λ p. Within (2 ^ 60) p.x) }
        ensures north { IfSome result (λ p. Within (2 ^ 60) p.y) }
    {
        let moved = self.moved(point);
        if is_level(moved.h) { Some(moved) } else { None }
    }
}
