//! Refinement of a map of disparities: small segments are removed, and pixels without a disparity
//! are filled.
#![tactic(auto)]

mod filling;
pub mod laws;
mod met;
mod pixels;
mod segments;

pub use filling::fill;
pub use segments::{LINK_DISTANCE, peaks};
