// The costs of a strip, and the sums of both level directions, row by row.
ghost use Rattle.std.specs.Prelude.{◌≡◌, ◌+◌, ◌<◌, ◌≤◌, length, All, IfOk, OnOk};
ghost use Rattle.sgm_base.specs.declared.limits.TheConstants.{MAX_COST};
ghost use Rattle.sgm_energy.specs.declared.dir.Dir.TheVariants.{Right, Left};
ghost use Rattle.sgm_energy.specs.Energies.{path_value};
ghost use Rattle.sgm_strip.specs.Scenes.{problem_of, row_length};
ghost use Rattle.sgm_strip.specs.Volumes.{HoldsRows};
ghost use Rattle.sgm_strip.specs.Passing.{AddsRow};

use crate::Scene;
use sgm_census::append_costs;
use sgm_path::append_level_sums;
use std::alloc::{AllocError, Global};

/// Makes the costs of the row `y` and the sums of its level directions, and appends both. What
/// `spare`, which is as long as the row, holds before does not matter.
fn append_row(
    scene: &Scene,
    y: u32,
    spare: &mut [u16],
    costs: &mut Vec<u8>,
    sums: &mut Vec<u16>,
) -> Result<(), AllocError>
    requires y { y < scene.now.left.height }
    requires spare { length spare.old ≡ row_length scene.now }
    ensures low { All (λ c. c ≤ MAX_COST) costs.old.items
        → OnOk result (All (λ c. c ≤ MAX_COST) costs.new.items) }
    ensures costs { OnOk result
        (AddsRow (problem_of scene.now) y
        (problem_of scene.now).cost costs.old.items costs.new.items) }
    ensures sums { let g = problem_of scene.now in
        OnOk result
        (AddsRow g y
        (λ p d. path_value g Right p d + path_value g Left p d) sums.old.items sums.new.items) }
{
    let at = costs.len();
    append_costs(&scene.left, &scene.right, scene.span, y, costs)?;
    append_level_sums(
        scene.pen,
        &costs[at..],
        scene.guide.row(y),
        scene.count(),
        spare,
        sums,
    )?;
    Ok(())
}

/// The costs of so many rows from `top` on, and the sums of their level directions.
pub(crate) fn strip_rows(
    alloc: Global,
    scene: &Scene,
    top: u32,
    rows: u32,
) -> Result<(Vec<u8>, Vec<u16>), AllocError>
    requires { top + rows ≤ scene.now.left.height }
    ensures low { IfOk result (λ made. All (λ c. c ≤ MAX_COST) made.0.items) }
    ensures costs { IfOk result
        (λ made. HoldsRows (problem_of scene.now) top rows
        (problem_of scene.now).cost made.0.items) }
    ensures sums { let g = problem_of scene.now in
        IfOk result
        (λ made. HoldsRows g top rows
        (λ p d. path_value g Right p d + path_value g Left p d) made.1.items) }
{
    let row = scene.row_length();
    // Reserved and not filled, so that each byte is written once.
    let mut costs = Vec::with_capacity(alloc, rows as usize * row)?;
    let mut sums = Vec::with_capacity(alloc, rows as usize * row)?;
    let mut spare = vec![in alloc; 0u16; row]?;
    for y in top..top + rows {
        append_row(scene, y, &mut spare, &mut costs, &mut sums)?;
    }
    Ok((costs, sums))
}
