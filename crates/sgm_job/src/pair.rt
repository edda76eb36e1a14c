//! What stands between the images and the scene.

ghost use Rattle.std.specs.Prelude.{◌≡◌, ◌≤◌};
ghost use Rattle.std.proofs.Props.{props};
ghost use Rattle.sgm_base.specs.Values.{AtMost};

use sgm_base::Plane;
use sgm_census::CodePlane;

/// A rectified image, and the codes of its pixels.
#[derive(Drop)]
pub(crate) struct Coded {
    pub(crate) plane: Plane,
    pub(crate) codes: CodePlane,
    ghost same_width: { plane.width ≡ codes.width },
    ghost same_height: { plane.height ≡ codes.height },
}

/// Two rectified images of one size, with codes by one window and one rule. The left one's values
/// go up to `maxval`.
#[derive(Drop)]
pub(crate) struct CodedPair {
    pub(crate) left: Coded,
    pub(crate) right: Coded,
    pub(crate) maxval: u16,
    ghost same_width: { left.codes.width ≡ right.codes.width },
    ghost same_height: { left.codes.height ≡ right.codes.height },
    ghost same_window: { left.codes.window ≡ right.codes.window },
    ghost same_rule: { left.codes.rule ≡ right.codes.rule },
    ghost some: { 1 ≤ maxval },
    ghost values: { AtMost maxval left.plane.entries } by { Prim.hlevel props },
}
