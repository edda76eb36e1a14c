ghost use Rattle.std.specs.Prelude.{◌≡◌, ◌+◌, ◌<◌, ◌≤◌, min};
ghost use Rattle.sgm_base.specs.Sides.{IsSide};
ghost use Rattle.sgm_strip.specs.Cuts.{CutParts, IsCut, first_row, rows_of};

use sgm_base::{MAX_SIDE, MAX_STRIPS};
use std::marker::Model;

/// How the `height` rows of an image are cut into `strips`: 1 <= strips <= [`MAX_STRIPS`], and
/// strips <= height <= [`MAX_SIDE`].
#[derive(Clone, Copy, PartialEq, Eq)]
pub struct Cut {
    pub height: u32,
    pub strips: u32,
}

impl Model for Cut {
    ghost Value = { CutParts };

    ghost view = { λ c. record { height = c.height; strips = c.strips } };

    ghost inverse = { λ c. record { height = c.height; strips = c.strips } };

    ghost invariant = { λ c. IsCut (record { height = c.height; strips = c.strips }) };
}

impl Cut {
    /// Strips of about as many rows: as many as are asked for, but no more than rows.
    pub fn even(height: u32, strips: u32) -> Cut
        requires height { IsSide height }
        requires strips { (1 ≤ strips) × (strips ≤ MAX_STRIPS) }
        ensures { result ≡ record { height = height; strips = min strips height } }
    {
        Cut {
            height,
            strips: strips.min(height),
        }
    }

    /// The row at which a strip begins, and, for the number of strips, the one after the last.
    #[tactic(auto, unfolding(crate::specs::Cuts::first_row))]
    fn start(&self, strip: u32) -> u32
        requires { strip ≤ self.now.strips }
        ensures { result ≡ first_row self.now strip }
    {
        strip * self.height / self.strips
    }

    /// The row at which a strip begins, from the image's top: floor(strip * height / strips).
    pub fn first(&self, strip: u32) -> u32
        requires { strip < self.now.strips }
        ensures row { result ≡ first_row self.now strip }
        ensures inside { result < self.now.height }
        ensures kept { IsCut self.now }
    {
        // Known from here on: what the cut keeps.
        let _ = &self.strips;
        self.start(strip)
    }

    /// How many rows a strip has, at least one.
    pub fn rows(&self, strip: u32) -> u32
        requires { strip < self.now.strips }
        ensures rows { result ≡ rows_of self.now strip }
        ensures some { 1 ≤ result }
        ensures inside { first_row self.now strip + result ≤ self.now.height }
    {
        // Known from here on: what the cut keeps.
        let _ = &self.strips;
        self.start(strip + 1) - self.start(strip)
    }
}
