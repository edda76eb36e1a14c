ghost use Rattle.std.specs.Prelude.{◌≡◌, ◌≤◌, ◌↔◌, true, false, IsSome, IfSome};
ghost use Rattle.sgm_base.specs.declared.limits.TheConstants.{MAX_PENALTY};

use sgm_base::MAX_PENALTY;

/// The penalties for a change of the index from one pixel of a ray to the next: `p1` where it
/// changes by one, `p2` where it changes by more. 1 <= p1 <= p2 <= [`MAX_PENALTY`]. An adaptive
/// pen's penalty of a change by more follows the image: see [`Pen::far`].
#[derive(Clone, Copy, PartialEq, Eq)]
pub struct Pen {
    p1: u16,
    p2: u16,
    adaptive: bool,
    ghost positive: { 1 ≤ p1 },
    ghost ordered: { p1 ≤ p2 },
    ghost limited: { p2 ≤ MAX_PENALTY },
}

impl Pen {
    ghost use Rattle.sgm_energy.specs.Pens.{penalties_of, far_of};

    /// A pen with the same penalties everywhere. None exactly where they are outside
    /// 1 <= p1 <= p2 <= [`MAX_PENALTY`].
    pub fn make(p1: u16, p2: u16) -> Option<Pen>
        ensures within { IsSome result ↔ ((1 ≤ p1) × (p1 ≤ p2) × (p2 ≤ MAX_PENALTY)) }
        ensures value { IfSome result (λ pen. penalties_of pen
            ≡ record { p1 = p1; p2 = p2; adaptive = false }) }
    {
        Pen::with(p1, p2, false)
    }

    /// A pen whose penalty of a change by more than one follows the image. None exactly where
    /// [`Pen::make`] is.
    pub fn adaptive(p1: u16, p2: u16) -> Option<Pen>
        ensures within { IsSome result ↔ ((1 ≤ p1) × (p1 ≤ p2) × (p2 ≤ MAX_PENALTY)) }
        ensures value { IfSome result (λ pen. penalties_of pen
            ≡ record { p1 = p1; p2 = p2; adaptive = true }) }
    {
        Pen::with(p1, p2, true)
    }

    fn with(p1: u16, p2: u16, adaptive: bool) -> Option<Pen>
        ensures within { IsSome result ↔ ((1 ≤ p1) × (p1 ≤ p2) × (p2 ≤ MAX_PENALTY)) }
        ensures value { IfSome result (λ pen. penalties_of pen
            ≡ record { p1 = p1; p2 = p2; adaptive = adaptive }) }
    {
        if 1 <= p1 && p1 <= p2 && p2 <= MAX_PENALTY {
            Some(Pen { p1, p2, adaptive })
        } else {
            None
        }
    }

    /// The penalty of a change by one.
    pub fn p1(&self) -> u16
        ensures { result ≡ (penalties_of self.now).p1 }
    {
        self.p1
    }

    /// The greatest penalty of a change by more than one.
    pub fn p2(&self) -> u16
        ensures { result ≡ (penalties_of self.now).p2 }
    {
        self.p2
    }

    /// Whether the penalty of a change by more than one follows the image.
    pub fn is_adaptive(&self) -> bool
        ensures { result ≡ (penalties_of self.now).adaptive }
    {
        self.adaptive
    }

    /// The penalty of a change by more than one between two pixels of a ray, by their grey values
    /// from 0 to 255: `p2`, where the pen isn't adaptive or a value is missing. Else it is `p2`
    /// divided by how far the two differ (by 1 where they don't), rounded down, and never less than
    /// `p1`.
    pub fn far(&self, here: Option<u8>, before: Option<u8>) -> u16
        ensures value { result ≡ far_of (penalties_of self.now) here before }
        ensures range { ((penalties_of self.now).p1 ≤ result)
            × (result ≤ (penalties_of self.now).p2) }
    {
        match (self.adaptive, here, before) {
            (true, Some(here), Some(before)) => {
                let difference = u16::from(here.abs_diff(before)).max(1);
                self.p1.max(self.p2 / difference)
            }
            _ => self.p2,
        }
    }
}
