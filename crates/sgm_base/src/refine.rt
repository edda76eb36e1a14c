ghost use Rattle.std.specs.Prelude.{◌≡◌, ◌↔◌, ◌≤◌, IsSome, IfSome};
ghost use Rattle.sgm_base.specs.Refining.{IsPeak, Refining};

use crate::limits::MAX_PEAK;
use std::marker::Model;

/// How a map of disparities is refined: segments of fewer than `peak` pixels are removed, and then,
/// where `fill` is true, pixels without a disparity are filled. `peak` is at most [`MAX_PEAK`].
#[derive(Clone, Copy, PartialEq, Eq)]
pub struct Refine {
    pub peak: u32,
    pub fill: bool,
}

impl Model for Refine {
    ghost Value = { Refining };

    ghost view = { λ r. record { peak = r.peak; fill = r.fill } };

    ghost inverse = { λ r. record { peak = r.peak; fill = r.fill } };

    ghost invariant = { λ r. IsPeak r.peak };
}

impl Refine {
    /// The map as it is: no segment is removed and no pixel filled.
    pub const PLAIN: Refine = Refine {
        peak: 0,
        fill: false,
    };

    /// None exactly where `peak` is above [`MAX_PEAK`].
    pub fn make(peak: u32, fill: bool) -> Option<Refine>
        ensures exact { IsSome result ↔ IsPeak peak }
        ensures made { IfSome result (λ r. r ≡ record { peak = peak; fill = fill }) }
    {
        if peak <= MAX_PEAK {
            Some(Refine { peak, fill })
        } else {
            None
        }
    }
}
