//! The certificate of an index at a pixel of a pair.
ghost use Rattle.std.specs.Prelude.{◌≡◌, Ok, Result, MatchResult, option_map};
ghost use Rattle.sgm_base.specs.Picture.{Picture};
ghost use Rattle.sgm_pgm.specs.Read.{Reads};
ghost use Rattle.sgm_pgm.specs.declared.fault.PgmFault.{PgmFault};
ghost use Rattle.sgm_energy.specs.Rays.{pixel_at};
ghost use Rattle.sgm_strip.specs.Scenes.{problem_of};
ghost use Rattle.sgm_trace.specs.Texts.{trace_text};
ghost use Rattle.sgm_calib.specs.Calibration.{Calibration};
ghost use Rattle.sgm_calib.specs.declared.keys.CalibFault.{CalibFault};
ghost use Rattle.sgm_stages.specs.Judge.{CalibReads, StopsFor};
ghost use Rattle.sgm_app.specs.Judge.{certificate_of_judged};
ghost use Rattle.sgm_stages.specs.Refusals.{unless};
ghost use Rattle.sgm_app.specs.Certificates.{certificate_for, inside_refusal, is_inside};

use crate::Refusal;
use crate::refused::survey_stop;
use sgm_energy::Dir;
use sgm_job::prepare;
use sgm_stages::{Judged, TextsError, judge_pair};
use sgm_strip::Scene;
use sgm_trace::{trace, write_trace};
use std::alloc::Global;

/// What a trace asks for: the index `d` at the pixel (x, y), and the direction.
#[derive(Clone, Copy)]
pub struct TracePlace {
    pub dir: Dir,
    pub x: u32,
    pub y: u32,
    pub d: u32,
}

/// The certificate's text that the bytes of a pair of PGM images and of its calibration call for,
/// at a pixel, an index and a direction; `calib` of None is the plain calibration. It is refused
/// for the first fault that stands: left, right, calibration, sizes, volume, left warp, right warp,
/// then a pixel or an index that there isn't.
pub(crate) fn certificate(
    alloc: Global,
    left: &[u8],
    right: &[u8],
    calib: Option<&[u8]>,
    at: TracePlace,
) -> Result<Vec<u8>, TextsError>
    ensures { (left_reads right_reads : Result Picture PgmFault)
        (calib_reads : Result Calibration CalibFault)
        → Reads left.now left_reads → Reads right.now right_reads
        → CalibReads (option_map (λ b. b.now) calib.entry) calib_reads
        → MatchResult result
        (λ text. certificate_for left_reads right_reads calib_reads at.dir at.x at.y at.d
        ≡ Ok text.items)
        (StopsFor (certificate_for left_reads right_reads calib_reads at.dir at.x at.y at.d)) }
{
    match judge_pair(alloc, left, right, calib) {
        Ok(judged) => judged_certificate(alloc, &judged, at),
        Err(stop) => Err(stop),
    }
}

/// The certificate's text of a pair that is judged, where it makes a scene that has the pixel and
/// the index.
fn judged_certificate(alloc: Global, judged: &Judged, at: TracePlace) -> Result<Vec<u8>, TextsError>
    ensures { MatchResult result
        (λ text. certificate_of_judged judged.now at.dir at.x at.y at.d ≡ Ok text.items)
        (StopsFor (certificate_of_judged judged.now at.dir at.x at.y at.d)) }
{
    match prepare(alloc, &judged.left, &judged.right, &judged.calib) {
        Ok(scene) => certificate_of(alloc, &scene, at),
        Err(error) => Err(survey_stop(error)),
    }
}

/// The certificate's text of a scene, where it has the pixel and the index.
fn certificate_of(alloc: Global, scene: &Scene, at: TracePlace) -> Result<Vec<u8>, TextsError>
    ensures { MatchResult result
        (λ text. unless (inside_refusal (problem_of scene.now) at.x at.y at.d)
        (trace_text (problem_of scene.now) at.dir (pixel_at at.x at.y) at.d) ≡ Ok text.items)
        (StopsFor
        (unless (inside_refusal (problem_of scene.now) at.x at.y at.d)
        (trace_text (problem_of scene.now) at.dir (pixel_at at.x at.y) at.d))) }
{
    let TracePlace { dir, x, y, d } = at;
    if !is_inside(scene, x, y, d) {
        return Err(TextsError::Refused(Refusal::NotInside { x, y, d }));
    }
    let traced = trace(alloc, scene, dir, x, y, d)?;
    let mut text = Vec::new(alloc);
    write_trace(&traced, &mut text)?;
    Ok(text)
}

/// Whether a scene has the pixel and the index.
fn is_inside(scene: &Scene, x: u32, y: u32, d: u32) -> bool
    ensures { result ≡ is_inside (problem_of scene.now) x y d }
{
    let size = scene.size();
    x < size.width && y < size.height && d < scene.span().count
}
