//! What follows from the definitions alone. Each function is a law, and its body is empty.

ghost use Rattle.std.specs.Prelude.{◌≡◌, ◌^◌, ◌*◌, ℤ, pos, ◌+ℤ◌, ◌-ℤ◌, ◌*ℤ◌, ◌≤ℤ◌, Some, IsTrue};
ghost use Rattle.sgm_base.specs.Ranges.{Within};
ghost use Rattle.sgm_base.specs.declared.point.Point.{Point};
ghost use Rattle.sgm_height.specs.Laws.{squared, turned, unturned};
ghost use Rattle.sgm_height.specs.Pose.{is_nearly_rotation, moved, site_point};
ghost use Rattle.sgm_height.specs.declared.pose.Axes.{Axes};

/// Axes that are nearly those of a rotation keep lengths: the square of a length, in 1/2^60, is
/// off by at most three parts in 2^15, so a length by at most 46 in a million.
pub fn lengths_are_kept()
    ensures at_most { (axes : Axes) (p : Point) → IsTrue (is_nearly_rotation axes)
        → squared (turned axes p)
        ≤ℤ ((pos (2 ^ 60) *ℤ squared p) +ℤ (pos (3 * 2 ^ 45) *ℤ squared p)) }
    ensures at_least { (axes : Axes) (p : Point) → IsTrue (is_nearly_rotation axes)
        → ((pos (2 ^ 60) *ℤ squared p) -ℤ (pos (3 * 2 ^ 45) *ℤ squared p))
        ≤ℤ squared (turned axes p) }
{}

/// A pose whose axes are those of the site's frame only moves points; where it doesn't move them
/// either, each point whose height is in range stays what it is.
pub fn an_unturned_pose_moves()
    ensures moved { (east north up : ℤ) (p : Point) → moved (unturned east north up) p
        ≡ record { x = p.x +ℤ east; y = p.y +ℤ north; h = p.h +ℤ up } }
    ensures at_rest { (p : Point) → Within 2000000000 p.h
        → site_point (unturned (pos 0) (pos 0) (pos 0)) p ≡ Some p }
{}
