//! From a pixel with a disparity to a point in space.
#![tactic(auto)]

mod camera;
pub mod laws;
mod limits;
mod pose;
mod station;

pub use camera::{Camera, point};
pub use limits::{MAX_AXIS, MAX_BASELINE, MAX_DEPTH, MAX_FOCAL, MAX_MOUNT, MAX_OFFSET, MAX_SITE};
pub use pose::{Axes, Axis, Pose};
pub use station::Station;
