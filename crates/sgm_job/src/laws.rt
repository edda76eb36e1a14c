//! What follows from the definitions alone. The function is a law: its clause speaks of every pair,
//! and its body is empty.

ghost use Rattle.std.specs.Prelude.{◌≡◌};
ghost use Rattle.sgm_base.specs.Picture.{Picture, IsPicture};
ghost use Rattle.sgm_calib.specs.Calibration.{Calibration};
ghost use Rattle.sgm_base.specs.Refining.{plain};
ghost use Rattle.sgm_job.specs.Survey.{disparities, survey_of};

/// Where nothing is to be removed and nothing to be filled, the map of a survey is that of the
/// disparities.
pub fn unrefined()
    ensures { (left right : Picture) (calib : Calibration) → IsPicture left
        → (survey_of left right calib plain).disp ≡ disparities left right calib }
{}
