//! The map that is selected from complete parcels.
ghost use Rattle.std.specs.Prelude.{◌≡◌, ◌≤◌, IsTrue};
ghost use Rattle.sgm_base.specs.declared.limits.TheConstants.{MAX_STRIPS, MAX_WORKERS};

use super::making::{LEFT, RIGHT, plane_of, scene_of};
use super::workers::matched_of;
use sgm_base::{DispMap, Plane};
use sgm_select::select;
use sgm_strip::Scene;
use sgm_work::OpenGate;
use std::alloc::Global;
use std::test::Fail;
use std::thread::Threads;

/// Whether a plane has a scene's size.
fn has_size(plane: &Plane, scene: &Scene) -> bool
    ensures width { IsTrue result → plane.now.width ≡ scene.now.left.width }
    ensures height { IsTrue result → plane.now.height ≡ scene.now.left.height }
{
    plane.size() == scene.size()
}

/// The map of a scene by so many strips and workers.
fn selected<R: Threads + Sync>(
    rt: &R,
    alloc: Global,
    scene: &Scene,
    strips: u32,
    workers: u32,
) -> Result<DispMap, Fail>
    requires strips { (1 ≤ strips) × (strips ≤ MAX_STRIPS) }
    requires workers { (1 ≤ workers) × (workers ≤ MAX_WORKERS) }
{
    let left = plane_of(alloc, &LEFT)?;
    let right = plane_of(alloc, &RIGHT)?;
    if !has_size(&left, scene) || !has_size(&right, scene) {
        return Err("sides")?;
    }
    let found = matched_of(rt, alloc, scene, strips, workers, &OpenGate)?;
    Ok(select(alloc, scene, &left, &right, &found.parcels)?)
}

/// The indices 0, 0, 1, 1, 1 in sixteenths, in each of three rows.
const MAP: [Option<u16>; 15] = [
    Some(0),
    Some(0),
    Some(16),
    Some(16),
    Some(16),
    Some(0),
    Some(0),
    Some(16),
    Some(16),
    Some(16),
    Some(0),
    Some(0),
    Some(16),
    Some(16),
    Some(16),
];

#[test]
fn the_map_of_the_worked_example(rt: HostRuntime) -> Result<(), Fail> {
    let scene = scene_of(rt.alloc())?;
    for (strips, workers) in [(1, 1), (3, 2)] {
        let map = selected(&rt, rt.alloc(), &scene, strips, workers)?;
        assert!(rt; map.size() == scene.size() && map.entries() == MAP.as_slice());
    }
    Ok(())
}
