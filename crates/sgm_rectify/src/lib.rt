//! Rectification: the image that a warp makes of an image, each value by bilinear interpolation
//! between the four samples round its source place.
#![tactic(auto)]

mod bilinear;
pub mod laws;
mod limits;
mod nodes;
mod place;
mod rectified;
mod warp;

pub use limits::{
    MAX_ENTRY, MAX_NODE, MAX_NODE_COUNT, MAX_STEP, MIN_ENTRY, MIN_NODE, MIN_NODE_COUNT, MIN_STEP,
};
pub use nodes::Nodes;
pub use rectified::{rectify, rectify_by, rectify_row};
pub use warp::{Warp, WarpFault};
