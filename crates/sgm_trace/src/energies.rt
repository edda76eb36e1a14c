ghost use Rattle.std.specs.Prelude.{◌≡◌, ◌+◌, ◌<◌, ◌≤◌, ℕ, List, [], ◌∷◌, ◌++◌, All, IfOk, length};
ghost use Rattle.std.specs.Prelude.{map, slice_index};
ghost use Rattle.sgm_base.specs.declared.limits.TheConstants.{MAX_COST, MAX_PENALTY, MAX_SIDE};
ghost use Rattle.sgm_energy.specs.Energies.{IsWithin};
ghost use Rattle.sgm_energy.specs.Rays.{IsInside, Pixel};
ghost use Rattle.sgm_strip.specs.Scenes.{problem_of};
ghost use Rattle.sgm_energy.specs.Step.{carried};
ghost use Rattle.sgm_trace.specs.Rows.{AreSmall, energies_of, first_energies, pixel_of};

use crate::place::Place;
use sgm_strip::Scene;
use std::alloc::{AllocError, Global};

/// The least energies of each index at each of these pixels of a ray, along the ray up to there.
pub(crate) fn energies(
    alloc: Global,
    scene: &Scene,
    places: &[Place],
) -> Result<Vec<Vec<u32>>, AllocError>
    requires some { 1 ≤ length places.now }
    requires few { length places.now ≤ MAX_SIDE }
    requires inside { All (λ p. IsInside (problem_of scene.now) (pixel_of p)) places.now }
    requires within { IsWithin (problem_of scene.now) MAX_COST MAX_PENALTY }
    ensures { IfOk result (λ v. map (λ row. row.items) v.items
        ≡ first_energies (problem_of scene.now) (map pixel_of places.now) (length places.now)) }
{
    let mut rows = Vec::new(alloc);
    rows.push(first_row(alloc, scene, places[0])?)?;
    for k in 1..places.len() {
        let row = next_row(alloc, scene, &rows[k - 1], places[k - 1], places[k])?;
        rows.push(row)?;
    }
    Ok(rows)
}

/// At the first pixel of a ray: the costs.
fn first_row(alloc: Global, scene: &Scene, first: Place) -> Result<Vec<u32>, AllocError>
    requires { IsInside (problem_of scene.now) (pixel_of first) }
    ensures { IfOk result (λ v. v.items
        ≡ energies_of (problem_of scene.now) (pixel_of first ∷ [])) }
{
    let span = scene.span();
    let mut row = Vec::with_capacity(alloc, span.count as usize)?;
    for d in 0..span.count {
        row.push(u32::from(scene.cost(first.x, first.y, d)))?;
    }
    Ok(row)
}

/// At a pixel, from those at the pixel `from` before it.
fn next_row(
    alloc: Global,
    scene: &Scene,
    before: &[u32],
    from: Place,
    here: Place,
) -> Result<Vec<u32>, AllocError>
    requires whole { length before.now ≡ (problem_of scene.now).count }
    requires within { IsWithin (problem_of scene.now) MAX_COST MAX_PENALTY }
    requires small { AreSmall before.now }
    requires from_inside { IsInside (problem_of scene.now) (pixel_of from) }
    requires inside { IsInside (problem_of scene.now) (pixel_of here) }
    ensures { (ps : List Pixel)
        → before.now ≡ energies_of (problem_of scene.now) (ps ++ pixel_of from ∷ [])
        → IfOk result (λ v. v.items
        ≡ energies_of (problem_of scene.now) ((ps ++ pixel_of from ∷ []) ++ pixel_of here ∷ [])) }
{
    let span = scene.span();
    let near = scene.pen().p1();
    let far = scene.far(here.x, here.y, from.x, from.y);
    let least = least_of(before);
    let mut row = Vec::with_capacity(alloc, before.len())?;
    for d in 0..span.count {
        let reached = carried(before, near, far, least, d as usize);
        row.push(reached + u32::from(scene.cost(here.x, here.y, d)))?;
    }
    Ok(row)
}

/// The least of some energies.
fn least_of(energies: &[u32]) -> u32
    requires { 1 ≤ length energies.now }
    ensures low { (d : ℕ) → d < length energies.now → result ≤ slice_index energies.now d }
    ensures reached { (d : ℕ) × (d < length energies.now) × (slice_index energies.now d ≡ result) }
{
    let mut least = energies[0];
    for d in 0..energies.len() {
        least = least.min(energies[d]);
    }
    least
}

/// What is carried to the index `d` from the energies at the pixel before, the least of which is
/// `least`.
fn carried(before: &[u32], near: u16, far: u16, least: u32, d: usize) -> u32
    requires inside { d < length before.now }
    requires small { AreSmall before.now }
    requires least { least ≤ slice_index before.now d }
    requires near { near ≤ MAX_PENALTY }
    requires far { far ≤ MAX_PENALTY }
    ensures value { result ≡ carried (slice_index before.now) (length before.now) near far least d }
    ensures bound { result ≤ slice_index before.now d }
{
    let mut reached = before[d].min(least + u32::from(far));
    if d + 1 < before.len() {
        reached = reached.min(before[d + 1] + u32::from(near));
    }
    if 0 < d {
        reached = reached.min(before[d - 1] + u32::from(near));
    }
    reached
}
