ghost use Rattle.std.specs.Prelude.{◌≡◌, ◌*◌, ◌<◌, ◌≤◌, ◌⊎◌, length, All};
ghost use Rattle.sgm_base.specs.declared.limits.TheConstants.{MAX_COST, MAX_COUNT};

use sgm_base::{MAX_COST, MAX_COUNT};
use sgm_energy::{Dir, Pen};

/// A row of costs, and the direction and the penalties by which path values come to it. `costs` has
/// `count` entries a pixel. `guide` and `guide_before` have the grey values of the row and of the
/// row that the direction comes from, one entry a pixel; in a level direction they are the same.
#[derive(Clone, Copy)]
pub struct RowPass<'a> {
    pub(crate) dir: Dir,
    pub(crate) pen: Pen,
    pub(crate) costs: &'a [u8],
    pub(crate) guide: &'a [Option<u8>],
    pub(crate) guide_before: &'a [Option<u8>],
    pub(crate) count: usize,
    ghost positive: { 0 < count },
    ghost limited: { count ≤ MAX_COUNT },
    ghost whole: { length costs.now ≡ length guide.now * count },
    ghost same_width: { length guide_before.now ≡ length guide.now },
    ghost low: { All (λ c. c ≤ MAX_COST) costs.now },
}

impl<'a> RowPass<'a> {
    ghost use Rattle.sgm_energy.specs.Pens.{penalties_of};
    ghost use Rattle.sgm_path.specs.Paths.{terms_of};

    /// The count is 1 to `MAX_COUNT`, and no cost is above `MAX_COST`.
    #[inline(always)]
    pub fn make(
        dir: Dir,
        pen: Pen,
        costs: &'a [u8],
        guide: &'a [Option<u8>],
        guide_before: &'a [Option<u8>],
        count: usize,
    ) -> RowPass<'a>
        requires count_range { (1 ≤ count) × (count ≤ MAX_COUNT) }
        requires guide_length { length costs.now ≡ length guide.now * count }
        requires guide_before_length { length guide_before.now ≡ length guide.now }
        requires costs { All (λ c. c ≤ MAX_COST) costs.now }
        ensures { terms_of result ≡ record {
          dir = dir;
          penalties = penalties_of pen;
          costs = costs.now;
          guide = guide.now;
          guide_before = guide_before.now;
          count = count;
        } }
    {
        RowPass {
            dir,
            pen,
            costs,
            guide,
            guide_before,
            count,
        }
    }

    /// The same pass, whose count is `COUNT`, known where it is compiled, unless that is 0.
    #[inline(always)]
    pub(crate) fn counted<const COUNT: usize>(&self) -> RowPass<'a>
        requires same { (COUNT ≡ 0) ⊎ (COUNT ≡ self.now.count) }
        ensures { terms_of result ≡ terms_of self.now }
    {
        if COUNT == 0 {
            return *self;
        }
        RowPass {
            dir: self.dir,
            pen: self.pen,
            costs: self.costs,
            guide: self.guide,
            guide_before: self.guide_before,
            count: COUNT,
        }
    }
}
