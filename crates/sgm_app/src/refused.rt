//! What ends a run whose survey has no answer.
ghost use Rattle.std.specs.Prelude.{◌≡◌};
ghost use Rattle.sgm_app.specs.Refusals.{refusal_of};
ghost use Rattle.sgm_app.specs.Stops.{survey_stop};

use crate::Refusal;
use sgm_job::{SurveyError, SurveyFault};
use sgm_stages::TextsError;

/// The refusal for a survey's fault.
fn refusal_for(fault: SurveyFault) -> Refusal
    ensures { result ≡ refusal_of fault }
{
    match fault {
        SurveyFault::SizesDiffer { left, right } => Refusal::SizesDiffer { left, right },
        SurveyFault::VolumeTooLarge { cells } => Refusal::VolumeTooLarge { cells },
        SurveyFault::Warp { side, fault } => Refusal::Warp(side, fault),
    }
}

/// Why there are no texts of a survey without an answer.
pub(crate) fn survey_stop(error: SurveyError) -> TextsError
    ensures { result ≡ survey_stop error }
{
    match error {
        SurveyError::Fault(fault) => TextsError::Refused(refusal_for(fault)),
        SurveyError::NoMemory => TextsError::NoMemory,
    }
}
