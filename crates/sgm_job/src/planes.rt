//! From the images to what is matched: rectified planes, their codes, and the scene of these.

ghost use Rattle.std.specs.Prelude.{◌≡◌, ◌<◌, IfOk};
ghost use Rattle.sgm_energy.specs.Pens.{guide_of};
ghost use Rattle.sgm_rectify.specs.Faults.{Suits};
ghost use Rattle.sgm_rectify.specs.Rectified.{sides_of};
ghost use Rattle.sgm_strip.specs.Scenes.{scene_of};
ghost use Rattle.sgm_job.specs.Matching.{IsMade, IsPair, Passes};

use crate::pair::{Coded, CodedPair};
use sgm_base::Image;
use sgm_calib::Calib;
use sgm_census::{CostRule, Window, codes, codes_by};
use sgm_map::ScenePlanes;
use sgm_rectify::{Warp, rectify, rectify_by};
use sgm_strip::{Guide, Scene};
use std::alloc::{AllocError, Global};
use std::thread::{Threads, join};

/// The image, rectified by the warp, with the codes of the window by the rule.
fn coded_image(
    alloc: Global,
    image: &Image,
    warp: &Warp,
    window: Window,
    rule: CostRule,
) -> Result<Coded, AllocError>
    requires { Suits warp.now (sides_of image.now) }
    ensures { IfOk result (IsMade image.now warp.now window rule) }
{
    let plane = rectify(alloc, image, warp)?;
    let codes = codes(alloc, &plane, window, rule)?;
    Ok(Coded { plane, codes })
}

/// What is made of two images, as a pair.
fn paired(
    left: Coded,
    right: Coded,
    left_image: &Image,
    right_image: &Image,
    calib: &Calib,
) -> CodedPair
    requires left { IsMade left_image.now calib.now.left calib.now.window calib.now.rule left }
    requires right { IsMade right_image.now calib.now.right calib.now.window calib.now.rule right }
    requires same { sides_of left_image.now ≡ sides_of right_image.now }
    ensures { IsPair left_image.now right_image.now calib.now result }
{
    // Known from here on: that no sample of the left image is above its greatest.
    let _samples = left_image.samples();
    CodedPair {
        left,
        right,
        maxval: left_image.maxval(),
    }
}

/// Both images, each by its warp, one after the other.
pub(crate) fn prepare_each(
    alloc: Global,
    left: &Image,
    right: &Image,
    calib: &Calib,
) -> Result<CodedPair, AllocError>
    requires { Passes (sides_of left.now) (sides_of right.now) calib.now }
    ensures { IfOk result (IsPair left.now right.now calib.now) }
{
    let window = calib.window();
    let rule = calib.rule();
    let left_made = coded_image(alloc, left, calib.left(), window, rule)?;
    let right_made = coded_image(alloc, right, calib.right(), window, rule)?;
    Ok(paired(left_made, right_made, left, right, calib))
}

/// Both images, each by its warp: the planes one after the other by at most so many threads, and
/// then their codes side by side, each by half of them.
pub(crate) fn prepare_both<R: Threads + Sync>(
    rt: &R,
    alloc: Global,
    left: &Image,
    right: &Image,
    calib: &Calib,
    threads: usize,
) -> Result<CodedPair, AllocError>
    requires passes { Passes (sides_of left.now) (sides_of right.now) calib.now }
    requires threads { 0 < threads }
    ensures { IfOk result (IsPair left.now right.now calib.now) }
{
    let window = calib.window();
    let rule = calib.rule();
    let left_plane = rectify_by(rt, alloc, left, calib.left(), threads)?;
    let right_plane = rectify_by(rt, alloc, right, calib.right(), threads)?;
    let (few, others) = (threads / 2, threads - threads / 2);
    let (left_codes, right_codes) = join(
        rt,
        || codes_by(rt, alloc, &left_plane, window, rule, few),
        || codes_by(rt, alloc, &right_plane, window, rule, others),
    );
    let left_made = Coded {
        plane: left_plane,
        codes: left_codes?,
    };
    let right_made = Coded {
        plane: right_plane,
        codes: right_codes?,
    };
    Ok(paired(left_made, right_made, left, right, calib))
}

/// The scene of a pair, with the left image as the guide.
pub(crate) fn guided_scene(
    alloc: Global,
    pair: CodedPair,
    calib: &Calib,
) -> Result<ScenePlanes, AllocError>
    ensures scene { IfOk result (λ made. made.scene ≡ scene_of pair.left.codes pair.right.codes
        calib.now.span calib.now.penalties (guide_of pair.left.plane pair.maxval)) }
    ensures left { IfOk result (λ made. made.left ≡ pair.left.plane) }
    ensures right { IfOk result (λ made. made.right ≡ pair.right.plane) }
{
    let CodedPair {
        left,
        right,
        maxval,
    } = pair;
    let guide = Guide::make(alloc, &left.plane, maxval)?;
    let scene = Scene::make(left.codes, right.codes, calib.span(), calib.pen(), guide);
    Ok(ScenePlanes {
        scene,
        left: left.plane,
        right: right.plane,
    })
}
