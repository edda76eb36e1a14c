ghost use Rattle.std.specs.Prelude.{◌≡◌, ℕ, ◌+◌, ◌≤◌, ◌⊎◌, length, All, IsTrue};
ghost use Rattle.sgm_energy.specs.declared.dir.Dir.TheVariants.{Right, Left};
ghost use Rattle.sgm_energy.specs.Dirs.{is_level};
ghost use Rattle.sgm_energy.specs.Pens.{penalties_of};
ghost use Rattle.sgm_energy.specs.Rays.{Problem};
ghost use Rattle.sgm_energy.specs.Energies.{path_value};
ghost use Rattle.sgm_energy.specs.Rows.{HoldsRow};
ghost use Rattle.sgm_path.specs.Paths.{AreCosts, far_between, HasFar, RowFollows, Suits};

use crate::row_pass::RowPass;
use crate::sweep::sweep;
use sgm_base::MAX_PATH_VALUE;
use sgm_energy::{Dir, Pen};

/// Writes the path values of one row, in a direction that stays in the row. `costs` and `into` are
/// rows of `count` entries a pixel, `guide` has the row's grey values, one entry a pixel, and no
/// cost is above `MAX_COST`. The first pixel in the direction has its costs alone. Every other has
/// what the recurrence gives from the values of the pixel before: so they are the least energies
/// along the ray, less that of the ray before the pixel.
pub fn run_row(
    dir: Dir,
    pen: Pen,
    costs: &[u8],
    guide: &[Option<u8>],
    count: usize,
    into: &mut [u16],
)
    requires level { IsTrue (is_level dir) }
    requires costs { AreCosts count guide.now costs.now }
    requires same_length { length costs.now ≡ length into.old }
    ensures bound { All (λ v. v ≤ MAX_PATH_VALUE) into.new }
    ensures each { let far = far_between (penalties_of pen) guide.now guide.now in
        RowFollows dir count (penalties_of pen).p1 far into.new costs.now into.new }
    // Whatever row of whatever problem the costs belong to, these are its path values.
    ensures paths { (g : Problem) (y : ℕ) → Suits g y (penalties_of pen).p1 count costs.now
        → HasFar g y y (far_between (penalties_of pen) guide.now guide.now)
        → HoldsRow g y (path_value g dir) into.new }
{
    let row = RowPass::make(dir, pen, costs, guide, guide, count);
    if pen.is_adaptive() {
        sweep::<true, false, 0>(&row, into, &mut [], &mut []);
    } else {
        sweep::<false, false, 0>(&row, into, &mut [], &mut []);
    }
}

/// The sums of both directions. `COUNT` is the count where that is known where this is compiled,
/// and else 0.
#[inline(always)]
fn both_levels<const ADAPTIVE: bool, const COUNT: usize>(
    pen: Pen,
    costs: &[u8],
    guide: &[Option<u8>],
    count: usize,
    spare: &mut [u16],
    into: &mut [u16],
)
    requires kind { (penalties_of pen).adaptive ≡ ADAPTIVE }
    requires counted { (COUNT ≡ 0) ⊎ (COUNT ≡ count) }
    requires costs { AreCosts count guide.now costs.now }
    requires same_length { length costs.now ≡ length into.old }
    requires spare_length { length spare.old ≡ length into.old }
    ensures { (g : Problem) (y : ℕ) → Suits g y (penalties_of pen).p1 count costs.now
        → HasFar g y y (far_between (penalties_of pen) guide.now guide.now)
        → HoldsRow g y (λ p d. path_value g Right p d + path_value g Left p d) into.new }
{
    let right = RowPass::make(Dir::Right, pen, costs, guide, guide, count);
    sweep::<ADAPTIVE, false, COUNT>(&right, into, &mut [], &mut []);
    let left = RowPass::make(Dir::Left, pen, costs, guide, guide, count);
    sweep::<ADAPTIVE, true, COUNT>(&left, spare, &mut [], into);
}

/// Writes the sums of the path values of both level directions of one row. `costs`, `spare` and
/// `into` are rows of `count` entries a pixel, `guide` has the row's grey values, one entry a
/// pixel, and no cost is above `MAX_COST`. What `spare` holds does not matter.
pub fn level_sums(
    pen: Pen,
    costs: &[u8],
    guide: &[Option<u8>],
    count: usize,
    spare: &mut [u16],
    into: &mut [u16],
)
    requires costs { AreCosts count guide.now costs.now }
    requires same_length { length costs.now ≡ length into.old }
    requires spare_length { length spare.old ≡ length into.old }
    // Whatever row of whatever problem the costs belong to, these are the sums of its path values.
    ensures { (g : Problem) (y : ℕ) → Suits g y (penalties_of pen).p1 count costs.now
        → HasFar g y y (far_between (penalties_of pen) guide.now guide.now)
        → HoldsRow g y (λ p d. path_value g Right p d + path_value g Left p d) into.new }
{
    if pen.is_adaptive() {
        return both_levels::<true, 0>(pen, costs, guide, count, spare, into);
    }
    // The numbers of indices that most pictures ask for are compiled apart, so that the chunks of a
    // pixel are counted there and not while it runs.
    match count {
        64 => both_levels::<false, 64>(pen, costs, guide, count, spare, into),
        128 => both_levels::<false, 128>(pen, costs, guide, count, spare, into),
        _ => both_levels::<false, 0>(pen, costs, guide, count, spare, into),
    }
}
