//! What a map shows from a station: the point of each of its pixels.

ghost use Rattle.std.specs.Prelude.{◌≡◌, ◌≤◌, ◌<◌, ◌^◌, pos, ◌+ℤ◌, ◌*ℤ◌, IfSome, option_and_then};
ghost use Rattle.std.proofs.Props.{props};
ghost use Rattle.sgm_base.specs.Ranges.{Within};
ghost use Rattle.sgm_base.specs.Values.{AtMost};
ghost use Rattle.sgm_base.specs.declared.limits.TheConstants.{MAX_DISPARITY, MAX_SIDE};
ghost use Rattle.sgm_height.specs.Station.{IsStation};
ghost use Rattle.sgm_grid.specs.Cells.{IsGridSpec};
ghost use Rattle.sgm_ground.specs.Heights.{point_at};

use sgm_base::{DispMap, Point, Span};
use sgm_grid::GridSpec;
use sgm_height::Station;

/// The points that a map shows from a station, and the grid into which they fall.
#[derive(Clone, Copy)]
pub struct Shown<'a> {
    pub station: &'a Station,
    pub span: Span,
    pub map: &'a DispMap,
    pub spec: GridSpec,
    ghost station_kept: { IsStation station.now } by { Prim.hlevel props },
    ghost spec_kept: { IsGridSpec spec },
    ghost values: { AtMost MAX_DISPARITY map.now.entries } by { Prim.hlevel props },
}

/// The disparity in sixteenths of a pixel that a value of a map stands for.
fn sixteenths(span: Span, value: u16) -> i32
    requires value { value ≤ MAX_DISPARITY }
    ensures exact { result ≡ (pos 16 *ℤ span.first) +ℤ pos value }
    ensures near { Within 32768 result }
{
    16 * span.first + i32::from(value)
}

/// The point that a pixel shows, where it has a disparity and a point.
pub(crate) fn pixel_point(shown: &Shown, x: u32, y: u32, value: Option<u16>) -> Option<Point>
    requires x { x < MAX_SIDE }
    requires y { y < MAX_SIDE }
    requires value { IfSome value (λ v. v ≤ MAX_DISPARITY) }
    ensures exact { result
        ≡ option_and_then (point_at shown.now.station.now shown.now.span.first x y) value }
    ensures height { IfSome result (λ p. Within 2000000000 p.h) }
    ensures east { IfSome result (λ p. Within (2 ^ 60) p.x) }
    ensures north { IfSome result (λ p. Within (2 ^ 60) p.y) }
{
    match value {
        None => None,
        Some(value) => shown.station.point(x, y, sixteenths(shown.span, value)),
    }
}
