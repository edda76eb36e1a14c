ghost use Rattle.sgm_words.specs.Ranges.{IsStrips, IsWorkers};

use sgm_base::Refine;
use sgm_job::{SurveyError, Surveyed, survey_refined};
use sgm_stages::Judged;
use sgm_work::Gate;
use std::alloc::Global;
use std::thread::Threads;

/// How a survey is shared out: so many workers match so many strips, each in a thread of its own
/// where one can be made, and come to the gate with each strip that they claim.
#[derive(Drop)]
pub struct Crew<'a, R, G> {
    pub(crate) rt: &'a R,
    pub(crate) alloc: Global,
    pub(crate) strips: u32,
    pub(crate) workers: u32,
    pub(crate) gate: &'a G,
    ghost strips_in_range: { IsStrips strips },
    ghost workers_in_range: { IsWorkers workers },
}

impl<'a, R: Threads + Sync, G: Gate + Sync> Crew<'a, R, G> {
    ghost use Rattle.std.specs.Prelude.{◌≡◌, IfOk};
    ghost use Rattle.sgm_base.specs.Values.{AtMost};
    ghost use Rattle.sgm_base.specs.declared.limits.TheConstants.{MAX_DISPARITY};
    ghost use Rattle.sgm_job.specs.Answers.{Answers};
    ghost use Rattle.sgm_job.specs.Survey.{surveyed};

    /// So many workers for so many strips.
    pub(crate) fn of(
        rt: &'a R,
        alloc: Global,
        strips: u32,
        workers: u32,
        gate: &'a G,
    ) -> Crew<'a, R, G>
        requires strips { IsStrips strips }
        requires workers { IsWorkers workers }
        ensures strips { result.strips ≡ strips }
        ensures workers { result.workers ≡ workers }
    {
        Crew {
            rt,
            alloc,
            strips,
            workers,
            gate,
        }
    }

    /// The survey of a pair that is judged, its map being refined so.
    pub(crate) fn survey(&self, judged: &Judged, refine: Refine) -> Result<Surveyed, SurveyError>
        ensures exact { Answers
            (surveyed judged.now.left judged.now.right judged.now.calib refine) result }
        ensures bound { IfOk result (λ survey. AtMost MAX_DISPARITY survey.disp.entries) }
    {
        survey_refined(
            self.rt,
            self.alloc,
            &judged.left,
            &judged.right,
            &judged.calib,
            self.strips,
            self.workers,
            refine,
            self.gate,
        )
    }
}
