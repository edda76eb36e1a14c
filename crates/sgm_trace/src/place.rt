ghost use Rattle.std.specs.Prelude.{◌≡◌, ◌<◌, ◌≤◌, All, IfOk, length, map, option_map};
ghost use Rattle.sgm_base.specs.declared.limits.TheConstants.{MAX_SIDE};
ghost use Rattle.sgm_energy.specs.Rays.{IsInside, Problem, predecessor, ray};
ghost use Rattle.sgm_trace.specs.Rows.{pixel_of};
ghost use Rattle.sgm_strip.specs.Scenes.{problem_of};

use sgm_base::Size;
use sgm_energy::Dir;
use sgm_strip::Scene;
use std::alloc::{AllocError, Global};

/// A pixel: its column and its row.
#[derive(Clone, Copy)]
pub(crate) struct Place {
    pub(crate) x: u32,
    pub(crate) y: u32,
}

/// The pixel before, where the ray doesn't begin.
fn place_before(size: Size, dir: Dir, here: Place) -> Option<Place>
    requires column { here.x < size.width }
    requires row { here.y < size.height }
    ensures { (g : Problem) → g.width ≡ size.width → g.height ≡ size.height
        → option_map pixel_of result ≡ predecessor g dir (pixel_of here) }
{
    let x = dir.column_before(size.width as usize, here.x as usize)?;
    let y = dir.row_before(size.height, here.y)?;
    Some(Place { x: x as u32, y })
}

/// The pixels of the ray that comes to `last`, in its order.
pub(crate) fn places(
    alloc: Global,
    scene: &Scene,
    dir: Dir,
    last: Place,
) -> Result<Vec<Place>, AllocError>
    requires { IsInside (problem_of scene.now) (pixel_of last) }
    ensures ray { IfOk result (λ v. map pixel_of v.items
        ≡ ray (problem_of scene.now) dir (pixel_of last)) }
    ensures inside { IfOk result
        (λ v. All (λ p. IsInside (problem_of scene.now) (pixel_of p)) v.items) }
    ensures short { IfOk result (λ v. (1 ≤ length v.items) × (length v.items ≤ MAX_SIDE)) }
{
    let size = scene.size();
    let mut places = Vec::new(alloc);
    places.push(last)?;
    let mut here = last;
    while let Some(before) = place_before(size, dir, here) {
        places.push(before)?;
        here = before;
    }
    places.reverse();
    Ok(places)
}
