//! What follows from the definitions alone. Each function is a law: its clauses speak of every
//! plane, and its body is empty.

ghost use Rattle.std.specs.Prelude.{◌≡◌, ℕ, ◌≤◌, ℤ};
ghost use Rattle.sgm_base.specs.Disparities.{Disparities};
ghost use Rattle.sgm_base.specs.Values.{Values, IsValues};
ghost use Rattle.sgm_energy.specs.Pens.{Penalties};
ghost use Rattle.sgm_energy.specs.Energies.{IsWithin};
ghost use Rattle.sgm_census.specs.Windows.{WindowSides, IsWindow, greatest_of};
ghost use Rattle.sgm_census.specs.Codes.{Codes, IsCodes, codes_of, code_by, code_in};
ghost use Rattle.sgm_census.specs.declared.rule.CostRule.{CostRule};
ghost use Rattle.sgm_census.specs.Costs.{census_cost};
ghost use Rattle.sgm_census.specs.Matching.{KeepsLimits, matching_problem};

use sgm_base::{MAX_COST, MAX_PENALTY};

/// In the codes of a plane each pixel has its code, and a pixel outside has none. A code has a
/// truth value for each pixel of the window beside the centre.
pub fn codes_of_planes()
    ensures pixel { (plane : Values) (window : WindowSides) (rule : CostRule) (x y : ℕ)
        → code_in (codes_of plane window rule) x y ≡ code_by rule plane window x y }
    ensures kept { (plane : Values) (window : WindowSides) (rule : CostRule) → IsValues plane
        → IsWindow window.width window.height
        → IsCodes (codes_of plane window rule) }
{}

/// No cost is above the window's greatest one, which is at most [`MAX_COST`].
pub fn costs()
    ensures greatest { (left right : Codes) (first : ℤ) (x y d : ℕ) → IsCodes left
        → census_cost left right first x y d ≤ greatest_of left.window }
    ensures most { (left right : Codes) (first : ℤ) (x y d : ℕ) → IsCodes left
        → census_cost left right first x y d ≤ MAX_COST }
{}

/// In the problem of matching two planes of codes, with penalties in their limits and whatever
/// guide, costs and penalties are within theirs. So no path value is above
/// [`sgm_base::MAX_PATH_VALUE`] and no sum over the eight directions above [`sgm_base::MAX_SUM`].
pub fn limits()
    ensures within { (left right : Codes) (span : Disparities) (penalties : Penalties)
        (guide : Values) → IsCodes left
        → penalties.p1 ≤ penalties.p2 → penalties.p2 ≤ MAX_PENALTY
        → IsWithin (matching_problem left right span penalties guide) MAX_COST MAX_PENALTY }
    ensures kept { (left right : Codes) (span : Disparities) (penalties : Penalties)
        (guide : Values) → IsCodes left
        → penalties.p1 ≤ penalties.p2 → penalties.p2 ≤ MAX_PENALTY
        → KeepsLimits (matching_problem left right span penalties guide) }
{}
