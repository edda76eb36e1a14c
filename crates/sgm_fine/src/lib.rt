//! Finer disparities: the surface between sixteenths as the grey values have it. The grey values of
//! a small window that lies along the surface are compared at seventeen places, and the best one is
//! taken; then each value is replaced by the mean of those around it that lie near.
#![tactic(auto)]

mod around;
mod band;
mod finer;
pub mod laws;
mod means;
mod samples;
mod score;
mod scores;
mod slopes;
mod small;
mod sums;
mod whole;

pub use finer::finer_row;
pub use means::mean_row;
