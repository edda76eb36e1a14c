ghost use Rattle.std.specs.Prelude.{◌≡◌, ◌+◌, ◌*◌, ◌<◌, ◌≤◌, IfOk, sum_by};
ghost use Rattle.sgm_base.specs.declared.limits.TheConstants.{MAX_PATH_VALUE, MAX_SIDE};
ghost use Rattle.sgm_energy.specs.Energies.{least_ending};
ghost use Rattle.sgm_energy.specs.Rays.{pixel_at, ray};
ghost use Rattle.sgm_strip.specs.Scenes.{problem_of};
ghost use Rattle.sgm_trace.specs.declared.traced.Step.{Step};
ghost use Rattle.sgm_trace.specs.Best.{best, steps_of};

use crate::energies::energies;
use crate::place::{Place, places};
use crate::steps::steps;
use crate::traced::Traced;
use sgm_energy::Dir;
use sgm_strip::Scene;
use std::alloc::{AllocError, Global};

/// The certificate of the index `d` at the pixel (x, y) in a direction: the least energy of the
/// sequences along the ray that comes to the pixel that end in `d`, and one that has it, step by
/// step. Of several it is the one that is least when they are compared index by index from their
/// ends backwards. The costs and penalties of the steps add up to the energy, which is at most
/// 4096 * 4062. Takes memory for one ray.
pub fn trace(
    alloc: Global,
    scene: &Scene,
    dir: Dir,
    x: u32,
    y: u32,
    d: u32,
) -> Result<Traced, AllocError>
    requires column { x < scene.now.left.width }
    requires row { y < scene.now.left.height }
    requires index { d < scene.now.span.count }
    ensures energy { IfOk result (λ t. t.energy
        ≡ least_ending (problem_of scene.now) (ray (problem_of scene.now) dir (pixel_at x y)) d) }
    ensures steps { IfOk result (λ t. t.steps.items
        ≡ steps_of (problem_of scene.now) (ray (problem_of scene.now) dir (pixel_at x y))
        (best (problem_of scene.now) (ray (problem_of scene.now) dir (pixel_at x y)) d)) }
    ensures bound { IfOk result (λ t. t.energy ≤ MAX_SIDE * MAX_PATH_VALUE) }
    ensures adds { IfOk result (λ t. sum_by (λ (step : Step). step.cost + step.jump) t.steps.items
        ≡ t.energy) }
{
    // Known from here on: what a scene keeps.
    let _size = scene.size();
    let places = places(alloc, scene, dir, Place { x, y })?;
    let rows = energies(alloc, scene, &places)?;
    let energy = rows[places.len() - 1][d as usize];
    let steps = steps(alloc, scene, &places, &rows, d)?;
    Ok(Traced { energy, steps })
}
