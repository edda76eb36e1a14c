//! Sizes, disparities, images, planes, disparity maps and points, whose types keep their ranges;
//! which columns of two images stand for each other; and the limits of the tool.
#![tactic(auto)]

mod disp_map;
mod image;
mod limits;
mod overlap;
mod plane;
mod point;
mod refine;
mod side;
mod size;
mod span;

pub use disp_map::DispMap;
pub use image::Image;
pub use limits::{
    MAX_CALIB_BYTES, MAX_COST, MAX_COUNT, MAX_DISPARITY, MAX_FIRST, MAX_GRID_BYTES, MAX_GRID_LINES,
    MAX_IMAGE_BYTES, MAX_LIST_BYTES, MAX_PATH_VALUE, MAX_PEAK, MAX_PENALTY, MAX_REGIONS, MAX_SIDE,
    MAX_STRIPS, MAX_SUM, MAX_VOLUME, MAX_WINDOW_HEIGHT, MAX_WINDOW_WIDTH, MAX_WORKERS, MIN_FIRST,
    MIN_WINDOW_SIDE,
};
pub use overlap::Overlap;
pub use plane::Plane;
pub use point::{Point, round_div};
pub use refine::Refine;
pub use side::Side;
pub use size::Size;
pub use span::Span;
