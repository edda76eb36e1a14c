//! From complete parcels to the disparities, strip by strip.

ghost use Rattle.std.specs.Prelude.{◌≡◌, ◌<◌, IfOk, IfSome, length, map};
ghost use Rattle.sgm_strip.specs.Cuts.{CutParts};
ghost use Rattle.sgm_strip.specs.Scenes.{problem_of};
ghost use Rattle.sgm_strip.specs.Strips.{AreComplete, AreStrips};
ghost use Rattle.sgm_select.specs.Selection.{disparities_of};
ghost use Rattle.sgm_select.specs.Strips.{AreRowsOf};
ghost use Rattle.sgm_map.specs.Selecting.{AreSelected};

use crate::planes::ScenePlanes;
use sgm_base::DispMap;
use sgm_select::{join_strips, select_strip};
use sgm_strip::Parcel;
use sgm_threads::side_by_side;
use std::alloc::{AllocError, Global};
use std::thread::Threads;

/// The disparities of a strip's rows; None where there is no memory.
fn rows_at(
    alloc: Global,
    planes: &ScenePlanes,
    parcels: &[Parcel],
    strip: usize,
) -> Option<Vec<Option<u16>>>
    requires complete { AreComplete planes.now.scene parcels.now }
    requires strip { strip < length parcels.now }
    ensures { IfSome result (λ rows. AreSelected planes.now.scene planes.now.left planes.now.right
        parcels.now strip rows.items) }
{
    select_strip(alloc, &planes.left, &planes.right, &parcels[strip]).ok()
}

/// The disparities of each strip's rows, found by at most so many threads.
#[tactic(auto, using(crate::proofs::Crossing::shared))]
fn selected_strips<R: Threads + Sync>(
    rt: &R,
    alloc: Global,
    planes: &ScenePlanes,
    parcels: &[Parcel],
    threads: usize,
) -> Result<Vec<Vec<Option<u16>>>, AllocError>
    requires threads { 0 < threads }
    requires complete { AreComplete planes.now.scene parcels.now }
    ensures { (cut : CutParts) → AreStrips planes.now.scene cut parcels.now
        → IfOk result (λ strips. AreRowsOf
        (disparities_of (problem_of planes.now.scene) planes.now.left planes.now.right
        planes.now.scene.span.first) cut (map (λ rows. rows.items) strips.items)) }
{
    let strips = parcels.len();
    side_by_side(
        rt,
        alloc,
        strips,
        threads,
        &|strip| rows_at(alloc, planes, parcels, strip),
    )
}

/// The disparity of each pixel of the left plane, found by at most so many threads.
pub(crate) fn select_all<R: Threads + Sync>(
    rt: &R,
    alloc: Global,
    planes: &ScenePlanes,
    parcels: &[Parcel],
    threads: usize,
) -> Result<DispMap, AllocError>
    requires threads { 0 < threads }
    requires complete { AreComplete planes.now.scene parcels.now }
    ensures { IfOk result (λ map. map ≡ disparities_of (problem_of planes.now.scene)
        planes.now.left planes.now.right planes.now.scene.span.first) }
{
    let strips = selected_strips(rt, alloc, planes, parcels, threads)?;
    join_strips(alloc, planes.left.size(), &strips)
}
