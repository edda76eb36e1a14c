ghost use Rattle.std.specs.Prelude.{◌≡◌, ◌≤◌, ◌<◌, IfOk, Some, None};
ghost use Rattle.sgm_rectify.specs.Warps.{IsWarp};
ghost use Rattle.sgm_base.specs.Values.{AtMost};
ghost use Rattle.sgm_base.specs.declared.limits.TheConstants.{MAX_DISPARITY, MAX_STRIPS};
ghost use Rattle.sgm_base.specs.declared.limits.TheConstants.{MAX_WORKERS};
ghost use Rattle.sgm_census.specs.Matching.{matching_problem};
ghost use Rattle.sgm_energy.specs.Pens.{guide_of};
ghost use Rattle.sgm_base.specs.Refining.{plain};
ghost use Rattle.sgm_map.specs.Maps.{refined_disparities};
ghost use Rattle.sgm_job.specs.Survey.{is_too_large, pair_fault, prepared};
ghost use Rattle.sgm_job.specs.Survey.{side_fault, surveyed};
ghost use Rattle.sgm_job.specs.Answers.{Answers, Prepares};

use crate::ground::ground_of;
use crate::pair::CodedPair;
use crate::planes::{guided_scene, prepare_both, prepare_each};
use sgm_base::{DispMap, Image, MAX_VOLUME, Refine, Side, Size};
use sgm_calib::Calib;
use sgm_census::CostRule;
use sgm_grid::Grid;
use sgm_map::{Asked, scene_map};
use sgm_rectify::{Warp, WarpFault};
use sgm_report::RegionTally;
use sgm_strip::Scene;
use sgm_work::{Gate, complete_parcels};
use std::alloc::{AllocError, Global};
use std::thread::Threads;

/// Why a pair of images is refused.
#[derive(Clone, Copy, PartialEq, Eq)]
pub enum SurveyFault {
    /// The widths or the heights differ.
    SizesDiffer { left: Size, right: Size },
    /// width * height * count is above [`MAX_VOLUME`], and costs are plain.
    VolumeTooLarge { cells: u64 },
    /// The image of this side can't be rectified by its warp.
    Warp { side: Side, fault: WarpFault },
}

/// Why there is no survey.
#[derive(Clone, Copy, PartialEq, Eq)]
pub enum SurveyError {
    Fault(SurveyFault),
    NoMemory,
}

impl From<SurveyFault> for SurveyError {
    ghost use Rattle.sgm_job.specs.declared.job.SurveyError.TheVariants.{Fault};

    ghost from_gives = { λ fault error. error ≡ Fault fault };

    fn from(fault: SurveyFault) -> SurveyError {
        SurveyError::Fault(fault)
    }
}

impl From<AllocError> for SurveyError {
    ghost use Rattle.sgm_job.specs.declared.job.SurveyError.TheVariants.{NoMemory};

    ghost from_gives = { λ _ error. error ≡ NoMemory };

    fn from(_: AllocError) -> SurveyError {
        SurveyError::NoMemory
    }
}

/// What a survey answers.
#[derive(Drop)]
pub struct Surveyed {
    /// The disparity of each pixel of the left image, less the first, in sixteenths, refined.
    pub disp: DispMap,
    /// The height of each cell, bridges among them, where the calibration has a grid.
    pub grid: Option<Grid>,
    /// The tally of each region, where the calibration has regions.
    pub tallies: Option<Vec<RegionTally>>,
}

/// Why the image of a side can't be rectified, if that is so.
fn side_fault(side: Side, warp: &Warp, size: Size) -> Option<SurveyFault>
    requires { IsWarp warp.now }
    ensures { result ≡ side_fault side warp.now size }
{
    match warp.check(size) {
        Ok(()) => None,
        Err(fault) => Some(SurveyFault::Warp { side, fault }),
    }
}

/// Whether a volume of so many cells is refused. Where costs are smoothed it has no limit of its
/// own.
fn is_too_large(rule: CostRule, cells: u64) -> bool
    ensures { result ≡ is_too_large rule cells }
{
    match rule {
        CostRule::Plain => cells > MAX_VOLUME,
        CostRule::Smoothed => false,
    }
}

/// The fault of a pair, if it has one.
#[tactic(auto, unfolding(crate::specs::Survey::pair_fault))]
fn pair_fault(left: Size, right: Size, calib: &Calib) -> Option<SurveyFault>
    ensures { result ≡ pair_fault left right calib.now }
{
    if left != right {
        return Some(SurveyFault::SizesDiffer { left, right });
    }
    let cells = left.pixels() as u64 * u64::from(calib.span().count);
    if is_too_large(calib.rule(), cells) {
        return Some(SurveyFault::VolumeTooLarge { cells });
    }
    match side_fault(Side::Left, calib.left(), left) {
        None => side_fault(Side::Right, calib.right(), right),
        fault => fault,
    }
}

/// The refined disparity of each pixel of the left image of a pair.
fn disparity_map<R: Threads + Sync, G: Gate + Sync>(
    rt: &R,
    alloc: Global,
    pair: CodedPair,
    calib: &Calib,
    asked: Asked,
    gate: &G,
) -> Result<DispMap, AllocError>
    ensures exact { IfOk result (λ m. m ≡ refined_disparities
        (matching_problem pair.left.codes pair.right.codes calib.now.span calib.now.penalties
        (guide_of pair.left.plane pair.maxval)) pair.left.plane pair.right.plane calib.now.span
        calib.now.fine asked.refine) }
    ensures bound { IfOk result (λ m. AtMost MAX_DISPARITY m.entries) }
{
    let span = calib.span();
    // Known from here on: the range of the span.
    let _ = &span.count;
    let planes = guided_scene(alloc, pair, calib)?;
    let scene = &planes.scene;
    let parcels = complete_parcels(rt, alloc, scene, asked.strips, asked.workers, gate)?;
    scene_map(rt, alloc, &planes, &parcels, calib.fine(), asked)
}

/// In how many threads both images are rectified: one for each worker, or one for each image.
fn threads_for(workers: u32) -> usize
    ensures { 0 < result }
{
    workers.max(2) as usize
}

/// Surveys a pair of images: rectifies them, matches them, and gives for each pixel of the left one
/// its disparity, less the first, in sixteenths, or None where the match isn't the same from the
/// right or a pixel is void; the grid of heights where the calibration has one, of what each cell
/// keeps of its points and of what is bridged; and the tally of each region where it has regions.
/// Faults are seen to before memory is taken, in the order of [`SurveyFault`]. The image is cut
/// into `strips`, or as many as it has rows, and the work is shared among so many `workers`, each
/// in a thread of its own where one can be made; neither they nor the strips change the answer. The
/// workers come to the gate as [`sgm_work::scan`] says. Where the calibration asks for it, the
/// disparities are made finer before anything is made of them, in at most so many threads too.
pub fn survey<R: Threads + Sync, G: Gate + Sync>(
    rt: &R,
    alloc: Global,
    left: &Image,
    right: &Image,
    calib: &Calib,
    strips: u32,
    workers: u32,
    gate: &G,
) -> Result<Surveyed, SurveyError>
    requires strips { (1 ≤ strips) × (strips ≤ MAX_STRIPS) }
    requires workers { (1 ≤ workers) × (workers ≤ MAX_WORKERS) }
    ensures exact { Answers (surveyed left.now right.now calib.now plain) result }
    ensures bound { IfOk result (λ survey. AtMost MAX_DISPARITY survey.disp.entries) }
{
    let refine = Refine {
        peak: 0,
        fill: false,
    };
    survey_refined(rt, alloc, left, right, calib, strips, workers, refine, gate)
}

/// As [`survey`], with the refined map in the place of the disparities: what is less than a segment
/// of `refine.peak` pixels is removed, and then, where `refine.fill` is true, pixels without a
/// disparity are filled. The grid and the tallies are those of the refined map.
pub fn survey_refined<R: Threads + Sync, G: Gate + Sync>(
    rt: &R,
    alloc: Global,
    left: &Image,
    right: &Image,
    calib: &Calib,
    strips: u32,
    workers: u32,
    refine: Refine,
    gate: &G,
) -> Result<Surveyed, SurveyError>
    requires strips { (1 ≤ strips) × (strips ≤ MAX_STRIPS) }
    requires workers { (1 ≤ workers) × (workers ≤ MAX_WORKERS) }
    ensures exact { Answers (surveyed left.now right.now calib.now refine) result }
    ensures bound { IfOk result (λ survey. AtMost MAX_DISPARITY survey.disp.entries) }
{
    if let Some(fault) = pair_fault(left.size(), right.size(), calib) {
        return Err(SurveyError::Fault(fault));
    }
    let pair = prepare_both(rt, alloc, left, right, calib, threads_for(workers))?;
    let asked = Asked {
        strips,
        workers,
        refine,
    };
    let disp = disparity_map(rt, alloc, pair, calib, asked, gate)?;
    let ground = ground_of(rt, alloc, calib, &disp, workers as usize)?;
    Ok(Surveyed {
        disp,
        grid: ground.grid,
        tallies: ground.tallies,
    })
}

/// The scene that [`survey`] matches, or the fault that it answers. It is made in one thread.
/// Faults are seen to before memory is taken, in the order of [`SurveyFault`].
pub fn prepare(
    alloc: Global,
    left: &Image,
    right: &Image,
    calib: &Calib,
) -> Result<Scene, SurveyError>
    ensures { Prepares (prepared left.now right.now calib.now) result }
{
    if let Some(fault) = pair_fault(left.size(), right.size(), calib) {
        return Err(SurveyError::Fault(fault));
    }
    let pair = prepare_each(alloc, left, right, calib)?;
    Ok(guided_scene(alloc, pair, calib)?.scene)
}
