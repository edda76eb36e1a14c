//! What follows from the definitions alone. Each function is a law: its clauses speak of every warp
//! and every image, and its body is empty.

ghost use Rattle.std.specs.Prelude.{◌≡◌, ℕ, ◌+◌, ◌*◌, ◌<◌, ℤ, pos, ◌+ℤ◌, ◌*ℤ◌, ◌<ℤ◌, List, Some};
ghost use Rattle.std.specs.Prelude.{None, slice_index};
ghost use Rattle.sgm_base.specs.Picture.{Picture, IsPicture};
ghost use Rattle.sgm_base.specs.Sides.{Sides};
ghost use Rattle.sgm_base.specs.Values.{AtMost};
ghost use Rattle.sgm_rectify.specs.declared.warp.Warp.{Warp};
ghost use Rattle.sgm_rectify.specs.declared.warp.Warp.TheVariants.{Identity};
ghost use Rattle.sgm_rectify.specs.Bilinear.{whole, fraction};
ghost use Rattle.sgm_rectify.specs.Faults.{bad_corner};
ghost use Rattle.sgm_rectify.specs.Places.{denominator};
ghost use Rattle.sgm_rectify.specs.Rectified.{rectified, rectified_values};

/// A denominator that is positive at the four corners is positive over the whole image.
pub fn denominators()
    ensures { (matrix : List ℤ) (sides : Sides) (x y : ℕ) → bad_corner matrix sides ≡ None
        → x < sides.width → y < sides.height → pos 0 <ℤ denominator matrix x y }
{}

/// A coordinate is 256 times its whole part and its fraction, which is below 256.
pub fn coordinates()
    ensures sum { (u : ℤ) → (pos 256 *ℤ whole u) +ℤ pos (fraction u) ≡ u }
    ensures below { (u : ℤ) → fraction u < 256 }
{}

/// The identity gives each pixel its own sample.
pub fn identity()
    ensures { (image : Picture) (x y : ℕ) → x < image.width → y < image.height
        → rectified image Identity x y ≡ Some (slice_index image.samples (y * image.width + x)) }
{}

/// No value of a rectified image is above the greatest allowed sample of the image.
pub fn values()
    ensures { (image : Picture) (warp : Warp) → IsPicture image
        → AtMost image.maxval (rectified_values image warp).entries }
{}
