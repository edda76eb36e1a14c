//! From a scene to its complete parcels.

ghost use Rattle.std.specs.Prelude.{◌≡◌, ◌≤◌, ◌<◌, IfOk, IfSome, All};
ghost use Rattle.sgm_base.specs.declared.limits.TheConstants.{MAX_STRIPS, MAX_WORKERS};
ghost use Rattle.sgm_strip.specs.Parcels.{level_done};
ghost use Rattle.sgm_strip.specs.Strips.{AreComplete, AreStrips};
ghost use Rattle.sgm_work.specs.Made.{AreNewFronts, IsNewParcel};

use crate::gate::Gate;
use crate::matching::match_all;
use sgm_energy::Dir;
use sgm_strip::{Cut, Front, Parcel, Scene};
use sgm_threads::side_by_side;
use std::alloc::{AllocError, Global};
use std::thread::Threads;

/// The number of fronts: one for each direction that is not level.
const FRONTS: usize = Dir::FRONTS.len();

/// The parcel of a strip; None where there is no memory.
fn parcel_at(alloc: Global, scene: &Scene, cut: Cut, strip: usize) -> Option<Parcel>
    requires height { cut.height ≡ scene.now.left.height }
    requires strip { strip < cut.strips }
    ensures { IfSome result (λ parcel. IsNewParcel scene.now cut strip parcel) }
{
    Parcel::make(alloc, scene, cut, strip as u32).ok()
}

/// The parcels of all strips, with both level directions done, made by at most so many threads. The
/// thread that makes a parcel is the first that touches its memory.
#[tactic(auto, using(crate::proofs::Crossing::shared))]
fn parcels<R: Threads + Sync>(
    rt: &R,
    alloc: Global,
    scene: &Scene,
    cut: Cut,
    threads: usize,
) -> Result<Vec<Parcel>, AllocError>
    requires threads { 0 < threads }
    requires height { cut.height ≡ scene.now.left.height }
    ensures strips { IfOk result (λ v. AreStrips scene.now cut v.items) }
    ensures level { IfOk result (λ v. All (λ parcel. parcel.done ≡ level_done) v.items) }
{
    let strips = cut.strips as usize;
    side_by_side(
        rt,
        alloc,
        strips,
        threads,
        &|strip| parcel_at(alloc, scene, cut, strip),
    )
}

/// The six fronts, in order, which have visited no strip.
fn fronts(alloc: Global, scene: &Scene, cut: Cut) -> Result<Vec<Front>, AllocError>
    requires { cut.height ≡ scene.now.left.height }
    ensures { IfOk result (λ v. AreNewFronts scene.now cut v.items) }
{
    let mut fronts = Vec::with_capacity(alloc, FRONTS)?;
    for place in 0..FRONTS {
        let Some(dir) = Dir::from_front(place) else {
            unreachable!()
        };
        let front = Front::make(alloc, scene, cut, dir)?;
        fronts.push(front)?;
    }
    Ok(fronts)
}

/// The parcels of all strips of a scene, each with the sums of all eight directions. The image is
/// cut into so many strips, or as many as it has rows. So many workers, each in a thread of its own
/// where one can be made, hand the fronts through them and come to the gate as [`crate::scan`]
/// says. An error is want of memory.
pub fn complete_parcels<R: Threads + Sync, G: Gate + Sync>(
    rt: &R,
    alloc: Global,
    scene: &Scene,
    strips: u32,
    workers: u32,
    gate: &G,
) -> Result<Vec<Parcel>, AllocError>
    requires strips { (1 ≤ strips) × (strips ≤ MAX_STRIPS) }
    requires workers { (1 ≤ workers) × (workers ≤ MAX_WORKERS) }
    ensures { IfOk result (λ v. AreComplete scene.now v.items) }
{
    let cut = Cut::even(scene.size().height, strips);
    let parcels = parcels(rt, alloc, scene, cut, workers as usize)?;
    let fronts = fronts(alloc, scene, cut)?;
    let matched = match_all(rt, alloc, parcels, fronts, workers, gate)?;
    Ok(matched.parcels)
}
