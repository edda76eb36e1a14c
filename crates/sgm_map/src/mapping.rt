//! From the complete parcels of a scene to its map.

ghost use Rattle.std.specs.Prelude.{◌≡◌, IfOk};
ghost use Rattle.sgm_strip.specs.Scenes.{problem_of};
ghost use Rattle.sgm_strip.specs.Strips.{AreComplete};
ghost use Rattle.sgm_map.specs.Maps.{refined_disparities};

use crate::asked::Asked;
use crate::fining::finer_map;
use crate::planes::ScenePlanes;
use crate::refining::refined_map;
use crate::selecting::select_all;
use sgm_base::DispMap;
use sgm_strip::Parcel;
use std::alloc::{AllocError, Global};
use std::thread::Threads;

/// The refined disparity of each pixel of the left plane of a scene, less the first, in sixteenths,
/// made finer before that where `fine` is true; None where there is none. The parcels are those of
/// the strips of some cut. At most as many threads as workers are asked for select the strips and
/// make them finer. An error is want of memory.
pub fn scene_map<R: Threads + Sync>(
    rt: &R,
    alloc: Global,
    planes: &ScenePlanes,
    parcels: &[Parcel],
    fine: bool,
    asked: Asked,
) -> Result<DispMap, AllocError>
    requires complete { AreComplete planes.now.scene parcels.now }
    ensures { IfOk result (λ m. m ≡ refined_disparities (problem_of planes.now.scene)
        planes.now.left planes.now.right planes.now.scene.span fine asked.refine) }
{
    let refine = asked.refine;
    let map = select_all(rt, alloc, planes, parcels, asked.workers as usize)?;
    let finer = finer_map(rt, alloc, fine, planes, map, asked)?;
    refined_map(alloc, planes, parcels, finer, refine)
}
