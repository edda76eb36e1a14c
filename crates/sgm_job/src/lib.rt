//! The survey of a pair of images: the disparity of each pixel of the left one, refined where that
//! is asked for, the grid of heights and the tallies of its regions.
#![tactic(auto)]

mod ground;
mod job;
pub mod laws;
mod pair;
mod planes;

pub use job::{SurveyError, SurveyFault, Surveyed, prepare, survey, survey_refined};
