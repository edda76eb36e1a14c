ghost use Rattle.std.specs.Prelude.{◌≡◌, ◌+◌, ◌<◌, ◌≤◌, All, IfOk, length, map, slice_index};
ghost use Rattle.sgm_base.specs.declared.limits.TheConstants.{MAX_COST, MAX_COUNT, MAX_PENALTY};
ghost use Rattle.sgm_base.specs.declared.limits.TheConstants.{MAX_SIDE};
ghost use Rattle.sgm_energy.specs.Energies.{IsWithin, change, jump};
ghost use Rattle.sgm_energy.specs.Rays.{IsInside};
ghost use Rattle.sgm_strip.specs.Scenes.{problem_of};
ghost use Rattle.sgm_trace.specs.Best.{best, first_step, step_between, steps_of};
ghost use Rattle.sgm_trace.specs.Rows.{AreSmall, IsFirstLeast, first_energies, pixel_of};

use crate::place::Place;
use crate::traced::Step;
use sgm_strip::Scene;
use std::alloc::{AllocError, Global};

/// The steps of the sequence that ends in the index `d`, by the least energies at each pixel: from
/// the last pixel backwards, each index is the least from which the energy is reached.
pub(crate) fn steps(
    alloc: Global,
    scene: &Scene,
    places: &[Place],
    rows: &[Vec<u32>],
    d: u32,
) -> Result<Vec<Step>, AllocError>
    requires some { 1 ≤ length places.now }
    requires few { length places.now ≤ MAX_SIDE }
    requires inside { All (λ p. IsInside (problem_of scene.now) (pixel_of p)) places.now }
    requires index { d < (problem_of scene.now).count }
    requires count { (problem_of scene.now).count ≤ MAX_COUNT }
    requires within { IsWithin (problem_of scene.now) MAX_COST MAX_PENALTY }
    requires rows { map (λ row. row.items) rows.now
        ≡ first_energies (problem_of scene.now) (map pixel_of places.now) (length places.now) }
    ensures { IfOk result (λ v. v.items ≡ steps_of (problem_of scene.now) (map pixel_of places.now)
        (best (problem_of scene.now) (map pixel_of places.now) d)) }
{
    let mut steps = Vec::with_capacity(alloc, places.len())?;
    let mut index = d;
    let mut k = places.len() - 1;
    while 0 < k {
        let step = step_to(scene, &rows[k - 1], places[k - 1], places[k], index);
        steps.push(step.made)?;
        index = step.before;
        k -= 1;
    }
    steps.push(first_step(scene, places[0], index))?;
    steps.reverse();
    Ok(steps)
}

/// A step, and the index before it.
#[derive(Clone, Copy)]
struct Back {
    made: Step,
    before: u32,
}

/// The step of the index `d` at a pixel from the pixel `from` before it, and the index there: the
/// least from which `d` is reached with the least energy.
fn step_to(scene: &Scene, energies: &[u32], from: Place, here: Place, d: u32) -> Back
    requires whole { length energies.now ≡ (problem_of scene.now).count }
    requires count { length energies.now ≤ MAX_COUNT }
    requires small { AreSmall energies.now }
    requires from_inside { IsInside (problem_of scene.now) (pixel_of from) }
    requires inside { IsInside (problem_of scene.now) (pixel_of here) }
    requires index { d < (problem_of scene.now).count }
    ensures before { let g = problem_of scene.now in
        IsFirstLeast (λ a. slice_index energies.now a + jump g (pixel_of from) (pixel_of here) a d)
        g.count result.before }
    ensures made { result.made
        ≡ step_between (problem_of scene.now) (pixel_of from) (pixel_of here) result.before d }
{
    let near = scene.pen().p1();
    let far = scene.far(here.x, here.y, from.x, from.y);
    let before = index_before(energies, near, far, d as usize);
    let made = Step {
        x: here.x,
        y: here.y,
        d,
        cost: scene.cost(here.x, here.y, d),
        jump: change(near, far, before, d as usize),
    };
    Back {
        made,
        before: before as u32,
    }
}

/// The first step, which no change comes before.
fn first_step(scene: &Scene, here: Place, d: u32) -> Step
    requires inside { IsInside (problem_of scene.now) (pixel_of here) }
    requires index { d < (problem_of scene.now).count }
    ensures { result ≡ first_step (problem_of scene.now) (pixel_of here) d }
{
    Step {
        x: here.x,
        y: here.y,
        d,
        cost: scene.cost(here.x, here.y, d),
        jump: 0,
    }
}

/// The least index from which the index `d` is reached with the least energy.
fn index_before(energies: &[u32], near: u16, far: u16, d: usize) -> usize
    requires some { 1 ≤ length energies.now }
    requires few { length energies.now ≤ MAX_COUNT }
    requires index { d < length energies.now }
    requires small { AreSmall energies.now }
    ensures { IsFirstLeast (λ a. slice_index energies.now a + change near far a d)
        (length energies.now) result }
{
    let mut best = 0;
    let mut least = energies[0] + u32::from(change(near, far, 0, d));
    for a in 1..energies.len() {
        let energy = energies[a] + u32::from(change(near, far, a, d));
        if energy < least {
            best = a;
            least = energy;
        }
    }
    best
}

/// The penalty of a change from the index `before` to `here`.
fn change(near: u16, far: u16, before: usize, here: usize) -> u16
    requires before { before < 1000 }
    requires here { here < 1000 }
    ensures { result ≡ change near far before here }
{
    if before == here {
        0
    } else if before + 1 == here || here + 1 == before {
        near
    } else {
        far
    }
}
