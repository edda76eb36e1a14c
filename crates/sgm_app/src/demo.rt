//! The survey of a generated pair.
ghost use Rattle.std.specs.Prelude.{◌≡◌, Ok, IsTrue, MatchResult, string_bytes};
ghost use Rattle.sgm_io.specs.Counts.{Counts};
ghost use Rattle.sgm_stages.specs.Judge.{StopsFor};
ghost use Rattle.sgm_app.specs.Judge.{demo_of_judged};
ghost use Rattle.sgm_stages.specs.Ends.{ShownBy, OutStands, OutCountsShow, faults};
ghost use Rattle.sgm_app.specs.Verdict.{demo_for, demoed};

use crate::Outcome;
use crate::crew::Crew;
use crate::refused::survey_stop;
use sgm_base::{Refine, Size};
use sgm_calib::Calib;
use sgm_io::Sink;
use sgm_stages::{Judged, TextsError, deliver_summary, demo_text, pair};
use sgm_work::Gate;
use std::thread::Threads;

/// The width of the generated pair, in pixels.
pub const DEMO_WIDTH: u32 = 256;

/// Its height.
pub const DEMO_HEIGHT: u32 = 192;

// The summary of a demo over a pair that is judged, its map being refined so.
fn judged_summary<R: Threads + Sync, G: Gate + Sync>(
    crew: &Crew<'_, R, G>,
    judged: &Judged,
    refine: Refine,
) -> Result<String, TextsError>
    ensures { MatchResult result
        (λ summary. demo_of_judged judged.now refine ≡ Ok (string_bytes summary))
        (StopsFor (demo_of_judged judged.now refine)) }
{
    let surveyed = match crew.survey(judged, refine) {
        Ok(surveyed) => surveyed,
        Err(error) => return Err(survey_stop(error)),
    };
    match demo_text(crew.alloc, &surveyed.disp) {
        Ok(summary) => Ok(summary),
        Err(_) => Err(TextsError::NoMemory),
    }
}

// The summary of a demo: the pair that is generated from the number, with the plain settings and a
// map that is refined so.
fn demo_summary<R: Threads + Sync, G: Gate + Sync>(
    crew: &Crew<'_, R, G>,
    number: u32,
    refine: Refine,
) -> Result<String, TextsError>
    ensures { MatchResult result
        (λ summary. demo_for number refine ≡ Ok (string_bytes summary))
        (StopsFor (demo_for number refine)) }
{
    let size = Size {
        width: DEMO_WIDTH,
        height: DEMO_HEIGHT,
    };
    let (left, right) = pair(crew.alloc, size, number)?;
    let judged = Judged {
        left,
        right,
        calib: Calib::plain(),
    };
    judged_summary(crew, &judged, refine)
}

/// Surveys the pair that is generated from the number, and writes the summary.
pub fn run_demo<R: Threads + Sync, O: Sink, G: Gate + Sync>(
    crew: &Crew<'_, R, G>,
    number: u32,
    refine: Refine,
    out: &mut O,
) -> Outcome
    ensures cause { ShownBy (demoed number refine) result }
    ensures out { IsTrue O.tells
        → OutStands result (demoed number refine) (O.written out.old) (O.written out.new) }
    ensures counts { (reads writes : Counts) → OutCountsShow result
        (faults reads writes (O.faults out.old)) (faults reads writes (O.faults out.new)) }
{
    match demo_summary(crew, number, refine) {
        Ok(summary) => deliver_summary(out, summary.as_bytes()),
        Err(stop) => stop.outcome(),
    }
}
