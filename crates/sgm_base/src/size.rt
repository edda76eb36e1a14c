ghost use Rattle.std.specs.Prelude.{◌≡◌, ◌↔◌, ◌*◌, IsSome, IfSome};
ghost use Rattle.sgm_base.specs.Sides.{IsSide, Sides};

use crate::limits::MAX_SIDE;
use std::marker::Model;

/// The sides of an image in pixels, each from 1 to 4096.
#[derive(Clone, Copy, PartialEq, Eq)]
pub struct Size {
    pub width: u32,
    pub height: u32,
}

impl Model for Size {
    ghost Value = { Sides };

    ghost view = { λ s. record { width = s.width; height = s.height } };

    ghost inverse = { λ s. record { width = s.width; height = s.height } };

    ghost invariant = { λ s. IsSide s.width × IsSide s.height };
}

impl Size {
    /// None exactly where a side is outside 1 to 4096.
    pub fn make(width: u32, height: u32) -> Option<Size>
        ensures exact { IsSome result ↔ (IsSide width × IsSide height) }
        ensures made { IfSome result (λ s. s ≡ record { width = width; height = height }) }
    {
        if width >= 1 && width <= MAX_SIDE && height >= 1 && height <= MAX_SIDE {
            Some(Size { width, height })
        } else {
            None
        }
    }

    /// The number of pixels.
    pub fn pixels(&self) -> usize
        ensures pixels { result ≡ self.now.width * self.now.height }
        ensures width { IsSide self.now.width }
        ensures height { IsSide self.now.height }
    {
        self.width as usize * self.height as usize
    }
}
