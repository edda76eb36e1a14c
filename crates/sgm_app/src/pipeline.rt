//! From the bytes of the inputs to the texts: judging, the survey, and the making of the texts.
ghost use Rattle.std.specs.Prelude.{◌≡◌, Ok, Result, MatchResult, option_map};
ghost use Rattle.sgm_base.specs.Picture.{Picture};
ghost use Rattle.sgm_pgm.specs.Read.{Reads};
ghost use Rattle.sgm_pgm.specs.declared.fault.PgmFault.{PgmFault};
ghost use Rattle.sgm_calib.specs.Calibration.{Calibration};
ghost use Rattle.sgm_calib.specs.declared.keys.CalibFault.{CalibFault};
ghost use Rattle.sgm_words.specs.Ranges.{IsStrips, IsWorkers};
ghost use Rattle.sgm_stages.specs.Judge.{CalibReads, StopsFor};
ghost use Rattle.sgm_app.specs.Judge.{texts_of_judged};
ghost use Rattle.sgm_stages.specs.Made.{texts_in};
ghost use Rattle.sgm_app.specs.Verdict.{texts_for};

use crate::crew::Crew;
use crate::refused::survey_stop;
use sgm_base::Refine;
use sgm_stages::{Judged, MadeTexts, TextsError, judge_pair};
use sgm_work::Gate;
use std::alloc::Global;
use std::thread::Threads;

/// The texts that the bytes of a pair of PGM images and of its calibration call for, the map of
/// disparities being refined so; `calib` of None is the plain calibration. They are refused for the
/// first fault that stands, in the order in which the inputs are judged: left, right, calibration,
/// sizes, volume, left warp, right warp. So many workers as asked for match so many strips, as
/// `run` has it; the texts rest on neither.
pub fn texts<R: Threads + Sync, G: Gate + Sync>(
    rt: &R,
    alloc: Global,
    left: &[u8],
    right: &[u8],
    calib: Option<&[u8]>,
    strips: u32,
    workers: u32,
    refine: Refine,
    gate: &G,
) -> Result<MadeTexts, TextsError>
    requires strips { IsStrips strips }
    requires workers { IsWorkers workers }
    ensures { (left_reads right_reads : Result Picture PgmFault)
        (calib_reads : Result Calibration CalibFault)
        → Reads left.now left_reads → Reads right.now right_reads
        → CalibReads (option_map (λ b. b.now) calib.entry) calib_reads
        → MatchResult result
        (λ made. texts_for left_reads right_reads calib_reads refine ≡ Ok (texts_in made))
        (StopsFor (texts_for left_reads right_reads calib_reads refine)) }
{
    match judge_pair(alloc, left, right, calib) {
        Ok(judged) => {
            let crew = Crew::of(rt, alloc, strips, workers, gate);
            judged_texts(&crew, &judged, refine)
        }
        Err(stop) => Err(stop),
    }
}

/// The texts of a pair that is judged, or the refusal of its survey.
fn judged_texts<R: Threads + Sync, G: Gate + Sync>(
    crew: &Crew<'_, R, G>,
    judged: &Judged,
    refine: Refine,
) -> Result<MadeTexts, TextsError>
    ensures { MatchResult result
        (λ made. texts_of_judged judged.now refine ≡ Ok (texts_in made))
        (StopsFor (texts_of_judged judged.now refine)) }
{
    let surveyed = match crew.survey(judged, refine) {
        Ok(surveyed) => surveyed,
        Err(error) => return Err(survey_stop(error)),
    };
    match MadeTexts::of(
        crew.alloc,
        &judged.calib,
        &surveyed.disp,
        &surveyed.grid,
        &surveyed.tallies,
    ) {
        Ok(made) => Ok(made),
        Err(_) => Err(TextsError::NoMemory),
    }
}
