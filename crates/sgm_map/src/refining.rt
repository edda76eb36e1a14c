//! From the disparities to the refined ones. Where nothing is asked for, nothing is computed.

ghost use Rattle.std.specs.Prelude.{◌≡◌, IfOk};
ghost use Rattle.sgm_strip.specs.Scenes.{problem_of};
ghost use Rattle.sgm_strip.specs.Strips.{AreComplete};
ghost use Rattle.sgm_select.specs.Selection.{matches_of};
ghost use Rattle.sgm_refine.specs.Segments.{kept};
ghost use Rattle.sgm_refine.specs.Refined.{refined};

use crate::planes::ScenePlanes;
use sgm_base::{DispMap, Refine};
use sgm_refine::{fill, peaks};
use sgm_select::matches;
use sgm_strip::Parcel;
use std::alloc::{AllocError, Global};

/// The map without its segments of fewer than `peak` pixels.
fn without_peaks(alloc: Global, mut map: DispMap, peak: u32) -> Result<DispMap, AllocError>
    ensures { IfOk result (λ m. m ≡ kept map peak) }
{
    // Known from here on: what a map keeps.
    let _size = map.size();
    // A segment has its own pixel, so none has fewer than one.
    if peak <= 1 {
        return Ok(map);
    }
    peaks(alloc, &mut map, peak)?;
    Ok(map)
}

/// The refined map. The matches of the right image are found only where pixels are to be filled.
pub(crate) fn refined_map(
    alloc: Global,
    planes: &ScenePlanes,
    parcels: &[Parcel],
    map: DispMap,
    refine: Refine,
) -> Result<DispMap, AllocError>
    requires complete { AreComplete planes.now.scene parcels.now }
    requires width { map.width ≡ planes.now.scene.left.width }
    requires height { map.height ≡ planes.now.scene.left.height }
    ensures { IfOk result (λ m. m
        ≡ refined map (matches_of (problem_of planes.now.scene) planes.now.scene.span.first)
        planes.now.left planes.now.scene.span.first planes.now.scene.span.count refine) }
{
    let map = without_peaks(alloc, map, refine.peak)?;
    if !refine.fill {
        return Ok(map);
    }
    let scene = &planes.scene;
    let matched = matches(alloc, scene, parcels)?;
    fill(alloc, &map, &matched, &planes.left, scene.span())
}
